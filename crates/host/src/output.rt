// Where a host writes: a buffer that fills from the front.
ghost use Rattle.std.specs.Prelude.{◌≤◌, length};

use crate::LAST_CHARACTER;

#[derive(Drop)]
pub(crate) struct Output<'o> {
    // lent and of fixed size, since a run allocates nothing: so the number written stands beside it
    buffer: &'o mut [u32],
    // how many characters are written
    used: usize,
    ghost within: { used ≤ length buffer.now },
}

impl<'o> Output<'o> {
    ghost use Rattle.std.specs.Prelude.{◌≡◌, ◌-◌, [], ◌∷◌, ◌++◌, length, if◌then◌else◌};
    ghost use Rattle.host.specs.Text.{takes};
    ghost use Rattle.host.specs.Output.{written, room};

    pub(crate) fn new(buffer: &'o mut [u32]) -> Output<'o>
        ensures written { written result ≡ [] }
        ensures room { room result ≡ length buffer.old }
        ensures buffer { result.buffer.now ≡ buffer.old }
    {
        Output { buffer, used: 0 }
    }

    pub(crate) fn text(&self) -> &[u32]
        ensures { result.now ≡ written self.now }
    {
        &self.buffer[..self.used]
    }

    pub(crate) fn free(&self) -> usize
        ensures { result ≡ room self.now }
    {
        self.buffer.len() - self.used
    }

    pub(crate) fn put(&mut self, c: u32) -> bool
        ensures value { result ≡ takes (room self.old) c }
        ensures written { written self.new ≡ (if result then written self.old ++ (c ∷ []) else written self.old) }
        ensures room { room self.new ≡ (if result then room self.old - 1 else room self.old) }
    {
        if self.used < self.buffer.len() && c <= LAST_CHARACTER {
            self.buffer[self.used] = c;
            self.used += 1;
            true
        } else {
            false
        }
    }
}
