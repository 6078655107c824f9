// The text that is read, and how far.
ghost use Rattle.std.specs.Prelude.{◌≤◌, length};

mod steps;

// A text with a position in it: how many of its bytes are read, and how many of its lines.
#[derive(Drop)]
pub struct Reader<'a> {
    pub text: &'a [u8],
    pub at: usize,
    pub line: usize,
    ghost within: { at ≤ length text.now },
    ghost counted: { line ≤ at },
}
