// What holds of every device with split results: laws, in which there is nothing to run.
ghost use Rattle.split_device.specs.Laws.{AnswersAsUndivided, DevicesArePipelines, ReadsAreByCommits, ReadsAreOfAMoment, TwiceAsOnce, TwiceInTime};

/// Where each write stands in its time, each drain where nothing is in flight, and each search is of a current word, each
/// read answers what an undivided look-up of its key would at a moment between its search and its read.
pub fn reads_are_of_a_moment()
    ensures { ReadsAreOfAMoment }
{}

/// Where each state shows each key the old or the new answer of the commit under way then, each read is of a
/// moment, and old or new by a commit whose sets that moment shows: none that comes after the read.
pub fn reads_are_by_commits()
    ensures { ReadsAreByCommits }
{}

/// What a [`SplitDevice`](crate::SplitDevice) has in flight after an event, and what its read answers, is what the events
/// of that law make of it.
pub fn devices_are_pipelines()
    ensures { DevicesArePipelines }
{}

/// An undivided look-up answers as it would if each slot and its result word were one entry.
pub fn answers_as_undivided()
    ensures { AnswersAsUndivided }
{}

/// A write that is made twice, one right after the other, leaves what it leaves once. So a driver may answer that a write
/// failed where it can't know.
pub fn twice_as_once()
    ensures { TwiceAsOnce }
{}

/// Where it stands in its time, it does so the second time too, and behind both no other drain is due than behind one.
pub fn twice_in_time()
    ensures { TwiceInTime }
{}
