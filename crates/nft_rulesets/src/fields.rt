//! What a comparison looks at.

ghost use Rattle.std.specs.Prelude.{◌≡◌, Ok, Err, Some, None};
ghost use Rattle.std.specs.Str.{bytes_eq};
ghost use Rattle.json.specs.Value.{value_view};
ghost use Rattle.nft_rulesets.specs.Matches.{address_field, field_of, head_field, ipv4_field, is_absent, is_version, kind_field, meta_field, of_version, payload_field, port_field};
ghost use Rattle.nft_rulesets.specs.Products.{has_no_proto, most_of, wants_proto};
ghost use Rattle.nft_rulesets.specs.Values.{is_address};

use crate::looks::{has_members, sole, text_is};
use crate::why::Why;
use json::Value;
use rule_model::IpVersion;

/// A field of packets.
#[derive(Clone, Copy, Debug, PartialEq, Eq)]
pub(crate) enum Field {
    /// The sender.
    Source,
    /// The receiver.
    Receiver,
    /// The protocol.
    Protocol,
    /// A sender's port, of a protocol or of any that has ports.
    SourcePort(Option<u8>),
    /// A receiver's.
    ReceiverPort(Option<u8>),
    /// The version of IP.
    Version,
    /// One that packets of the version that is asked for don't have.
    Absent,
}

impl Field {
    /// Whether it is an address.
    pub(crate) fn is_address(self) -> bool
        ensures { result ≡ is_address self }
    {
        matches!(self, Field::Source | Field::Receiver)
    }

    /// The greatest number that it has.
    pub(crate) fn most(self) -> u128
        ensures { result ≡ most_of self }
    {
        match self {
            Field::Source | Field::Receiver => u128::MAX,
            Field::Protocol => 255,
            Field::SourcePort(_) | Field::ReceiverPort(_) => 65535,
            Field::Version | Field::Absent => 0,
        }
    }

    /// Whether it is a port of any protocol.
    pub(crate) fn wants_proto(self) -> bool
        ensures { result ≡ wants_proto self }
    {
        match self {
            Field::SourcePort(proto) | Field::ReceiverPort(proto) => proto.is_none(),
            _ => false,
        }
    }

    /// Whether packets of the version that is asked for don't have it.
    pub(crate) fn is_absent(self) -> bool
        ensures { result ≡ is_absent self }
    {
        matches!(self, Field::Absent)
    }
}

/// Whether two versions are the same.
pub(crate) fn is_version(version: IpVersion, wanted: IpVersion) -> bool
    ensures { result ≡ is_version version wanted }
{
    match version {
        IpVersion::V4 => matches!(wanted, IpVersion::V4),
        IpVersion::V6 => matches!(wanted, IpVersion::V6),
    }
}

/// A field that packets of one version alone have.
fn of_version(version: IpVersion, wanted: IpVersion, field: Field) -> Field
    ensures { result ≡ of_version version wanted field }
{
    if is_version(version, wanted) {
        return field;
    }
    Field::Absent
}

/// The field of a left side.
pub(crate) fn field_of(version: IpVersion, left: &Value) -> Result<Field, Why>
    ensures { result ≡ field_of version (Some (value_view left.now)) }
{
    match sole(left) {
        Some(found) => kind_field(version, found.0, &found.1),
        None => Err(Why::Match),
    }
}

/// The same by its kind.
fn kind_field(version: IpVersion, kind: &str, body: &Value) -> Result<Field, Why>
    ensures { result ≡ kind_field version kind.now (value_view body.now) }
{
    if kind == "payload" {
        payload_field(version, body)
    } else if kind == "meta" {
        meta_field(body)
    } else if kind == "ct" {
        Err(Why::State)
    } else {
        Err(Why::Match)
    }
}

/// A field that a key of packets tells.
fn meta_field(body: &Value) -> Result<Field, Why>
    ensures { result ≡ meta_field (value_view body.now) }
{
    if !has_members(body, 1) {
        Err(Why::Match)
    } else if text_is(body, "key", b"l4proto") {
        Ok(Field::Protocol)
    } else if text_is(body, "key", b"nfproto") {
        Ok(Field::Version)
    } else {
        Err(Why::Match)
    }
}

/// A field of a header.
fn payload_field(version: IpVersion, body: &Value) -> Result<Field, Why>
    ensures { result ≡ payload_field version (value_view body.now) }
{
    if has_members(body, 2) {
        return head_field(version, body);
    }
    Err(Why::Match)
}

/// The same by the header.
fn head_field(version: IpVersion, body: &Value) -> Result<Field, Why>
    ensures { result ≡ head_field version (value_view body.now) }
{
    if text_is(body, "protocol", b"ip") {
        ipv4_field(version, body)
    } else if text_is(body, "protocol", b"ip6") {
        address_field(version, IpVersion::V6, body)
    } else if text_is(body, "protocol", b"tcp") {
        port_field(Some(6), body)
    } else if text_is(body, "protocol", b"udp") {
        port_field(Some(17), body)
    } else if text_is(body, "protocol", b"th") {
        port_field(None, body)
    } else {
        Err(Why::Match)
    }
}

/// A field of the header of IPv4.
fn ipv4_field(version: IpVersion, body: &Value) -> Result<Field, Why>
    ensures { result ≡ ipv4_field version (value_view body.now) }
{
    if text_is(body, "field", b"protocol") {
        return Ok(of_version(version, IpVersion::V4, Field::Protocol));
    }
    address_field(version, IpVersion::V4, body)
}

/// An address of a version.
fn address_field(version: IpVersion, wanted: IpVersion, body: &Value) -> Result<Field, Why>
    ensures { result ≡ address_field version wanted (value_view body.now) }
{
    if text_is(body, "field", b"saddr") {
        Ok(of_version(version, wanted, Field::Source))
    } else if text_is(body, "field", b"daddr") {
        Ok(of_version(version, wanted, Field::Receiver))
    } else {
        Err(Why::Match)
    }
}

/// A port.
fn port_field(proto: Option<u8>, body: &Value) -> Result<Field, Why>
    ensures { result ≡ port_field proto (value_view body.now) }
{
    if text_is(body, "field", b"sport") {
        Ok(Field::SourcePort(proto))
    } else if text_is(body, "field", b"dport") {
        Ok(Field::ReceiverPort(proto))
    } else {
        Err(Why::Match)
    }
}
