// The data of a job that is opened: at most 256 bytes, which fit the response buffer.
// It is a module of its own, since a type with a ghost field may not stand where specs/Replies.antt, which names the type, is imported.
ghost use Rattle.std.specs.Prelude.{◌≤◌, length};

#[derive(Clone, Copy)]
pub struct Input<'a> {
    pub bytes: &'a [u8],
    ghost short: { length bytes.now ≤ 256 },
}
