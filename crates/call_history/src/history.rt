// A history that only proofs read: it takes no memory, and its calls do nothing at run time.
ghost use Rattle.std.specs.Prelude.{◌≡◌, List, [], ◌∷◌, ◌++◌};
ghost use Rattle.std.specs.Borrow.{ftrue};

use std::marker::{Model, PhantomData};

/// What happened so far, the oldest first: a clause reads it as `items`. So what an object can't tell can be
/// remembered beside it.
#[derive(Drop)]
pub struct History<T> {
    of: PhantomData<T>,
    pub ghost items: { List T },
}

impl<T> Model for History<T> {
    ghost also_owns = { λ _. ftrue };
}

impl<T> History<T> {
    /// Nothing happened.
    pub fn new() -> History<T>
        ensures { result.items ≡ [] }
    {
        History { of: PhantomData }
    }

    /// The history with this item behind it.
    pub fn and(&self, item: &T) -> History<T>
        ensures { result.items ≡ self.now.items ++ item.now ∷ [] }
    {
        History { of: PhantomData }
    }
}

/// A piece of bytes, as a history takes it: a clause reads it as its bytes.
#[derive(Drop)]
pub struct Piece<'a> {
    pub bytes: &'a [u8],
}

impl<'a> Model for Piece<'a> {
    ghost use Rattle.std.specs.Prelude.{List, ℕ};

    ghost Value = { List ℕ };

    ghost view = { λ p. p.bytes.now };
}

/// Pieces of bytes. No byte is kept, so the lifetime binds nothing.
pub type Pieces = History<Piece<'static>>;

impl History<Piece<'static>> {
    /// The pieces with this one behind them, whatever its lifetime.
    pub fn and_piece(&self, piece: &Piece<'_>) -> History<Piece<'static>>
        ensures { result.items ≡ self.now.items ++ piece.now ∷ [] }
    {
        History { of: PhantomData }
    }
}
