// A line that is read from left to right.
ghost use Rattle.std.specs.Prelude.{◌≤◌, length};

mod hexadecimal;
mod number;
mod parts;
mod words;

/// A line, and up to which place it has been read.
#[derive(Drop)]
pub struct Cursor<'a> {
    line: &'a [u8],
    place: usize,
    ghost within: { place ≤ length line.now },
}
