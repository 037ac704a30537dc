// A text and how far it has been read.

ghost use Rattle.std.specs.Prelude.{◌≤◌, length};

mod reading;

#[derive(Clone, Copy)]
pub struct Reader<'a> {
    text: &'a [u8],
    at: usize,
    ghost within: { at ≤ length text.now },
}
