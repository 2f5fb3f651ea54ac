//! What a call is given.

/// What happens besides.
#[derive(Clone, Copy, PartialEq, Eq)]
pub enum Way {
    Plain,
    Stray,
    Unread,
    Unflushed,
    Interrupted,
}

/// The way, the room of the output, and the text of the input.
#[derive(Clone, Copy)]
pub struct Given<'a> {
    pub way: Way,
    pub room: usize,
    pub text: &'a str,
}

/// What `WAY ROOM TEXT` gives; without the text it is empty.
pub fn read_given(given: &str) -> Option<Given<'_>> {
    let (way, rest) = given.split_once(' ')?;
    let (room, text) = rest.split_once(' ').unwrap_or((rest, ""));
    Some(Given {
        way: way_of(way)?,
        room: room.parse::<usize>().ok()?,
        text,
    })
}

/// The way of a name.
fn way_of(name: &str) -> Option<Way> {
    match name {
        "plain" => Some(Way::Plain),
        "stray" => Some(Way::Stray),
        "unread" => Some(Way::Unread),
        "unflushed" => Some(Way::Unflushed),
        "interrupted" => Some(Way::Interrupted),
        _ => None,
    }
}
