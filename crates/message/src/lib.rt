#![tactic(auto)]
// The messages that events write, from their parts: a head with its number, then TLVs.
ghost use Rattle.std.specs.Prelude.{◌≡◌, ◌+◌, ◌<◌, ◌≤◌, length};
ghost use Rattle.octets.specs.Octets.{over};
ghost use Rattle.area.specs.Area.{head_length, u_bit, type_count};
ghost use Rattle.area.specs.Tlvs.{ours, tlv_head, tlv_octets};
ghost use Rattle.message.specs.Message.{message_head, one_element, one_app, capability_with, room_with};

pub mod sac;

/// What an event may write, under its number.
#[derive(Clone, Copy, Debug, PartialEq, Eq)]
pub enum Message {
    /// One application switched on or off.
    Change {
        number: u32,
        ta_id: u32,
        on: bool,
    },
    /// Our wish about one App.
    Wish {
        number: u32,
        app: u32,
        disable: bool,
    },
}

// The type of a Capability message.
const CAPABILITY: u16 = 0x0202;

// How many octets stand before the area of a message.
const MESSAGE_HEAD: usize = 8;

// How many octets the value of a TAC with one element has, and that of a SAC.
const ONE_ELEMENT: usize = 1 + area::ELEMENT_LENGTH;

const ONE_APP: usize = 1 + 1;

/// How many octets the message of a change has.
pub const CHANGE_LENGTH: usize = MESSAGE_HEAD + area::HEAD_LENGTH + ONE_ELEMENT;

/// How many octets the message of a wish has.
pub const WISH_LENGTH: usize = MESSAGE_HEAD + area::HEAD_LENGTH + ONE_APP;

// What stands before the area of a message of type t, `len` the length of its area: the message's length counts its number too.
fn message_head(t: u16, len: usize, number: u32) -> [u8; MESSAGE_HEAD]
    requires { len < 65532 }
    ensures { result ≡ message_head t len number }
{
    let [t_high, t_low] = t.to_be_bytes();
    let [len_high, len_low] = ((4 + len) as u16).to_be_bytes();
    let [number_0, number_1, number_2, number_3] = number.to_be_bytes();
    [
        t_high, t_low, len_high, len_low, number_0, number_1, number_2, number_3,
    ]
}

// Here and below t is `area::TAC` or `area::SAC`; a type for it would hold one of these two numbers and ask no less.
// What stands before the value of a TLV: U = 1, F = 0, its type t, and `len` the length of its value.
fn tlv_head(t: usize, len: usize) -> [u8; area::HEAD_LENGTH]
    requires { (t < type_count) × (len < 65536) }
    ensures { result ≡ tlv_head (u_bit + t) len }
{
    let [t_high, t_low] = ((area::U_BIT + t) as u16).to_be_bytes();
    let [len_high, len_low] = (len as u16).to_be_bytes();
    [t_high, t_low, len_high, len_low]
}

// A TLV of ours over the front of a room that it fits: its head, then its value.
fn put_tlv(room: &mut [u8], t: usize, value: &[u8])
    requires { (t < type_count) × (length value.now ≤ 5) × (head_length + length value.now ≤ length room.old) }
    ensures { room.new ≡ over (tlv_octets (ours t value.now)) room.old }
{
    let head = tlv_head(t, value.len());
    octets::put(room, &head);
    octets::put_at(room, area::HEAD_LENGTH, value);
}

// A Capability message with one TLV of ours, of type t. Without room for all of it nothing is written.
fn write_with(room: &mut [u8], number: u32, t: usize, value: &[u8])
    requires { (t < type_count) × (length value.now ≤ 5) }
    ensures { room.new ≡ over (capability_with number t value.now) room.old }
{
    let area = area::HEAD_LENGTH + value.len();
    if room.len() < MESSAGE_HEAD + area {
        return;
    }
    let head = message_head(CAPABILITY, area, number);
    octets::put(room, &head);
    put_tlv(&mut room[MESSAGE_HEAD..], t, value);
}

// The value of a TAC with S = 1 and one element.
fn one_element(n: u32, on: bool) -> [u8; ONE_ELEMENT]
    ensures { result ≡ one_element n on }
{
    let [_, _, n_high, n_low] = n.to_be_bytes();
    let s = octets::top_bit(true);
    let e = octets::top_bit(on);
    [s, n_high, n_low, e, 0]
}

// The value of a SAC with S = 1 and one element.
fn one_app(n: u32, disable: bool) -> [u8; ONE_APP]
    ensures { result ≡ one_app n disable }
{
    let element = sac::app_element(n, disable);
    [octets::top_bit(true), element]
}

/// Puts the message over the front of the room where octets were said to be written; else the room stays.
// `written` is the answer's field, which C has and `room_after` goes by, so it stays beside the message.
#[inline(always)]
#[tactic(auto, unfolding(choice::specs::Pick::pick, crate::specs::Message::room_with))]
pub fn write(room: &mut [u8], written: u16, message: Option<Message>)
    ensures { room.new ≡ room_with written message room.old }
{
    if written == 0 {
        return;
    }
    match message {
        Some(Message::Change { number, ta_id, on }) => write_with(
            room,
            number,
            area::TAC,
            &one_element(ta_id, on),
        ),
        Some(
            Message::Wish {
                number,
                app,
                disable,
            },
        ) => write_with(room, number, area::SAC, &one_app(app, disable)),
        None => {}
    }
}
