// A host that reads bytes, each a character.
ghost use Rattle.std.specs.Prelude.{◌≡◌, [], length, ◌==◌, position};
ghost use Rattle.host.specs.Bytes.{left};
ghost use Rattle.host.specs.Host.{written, room};

use crate::source::Source;
use crate::text::TextHost;

#[derive(Drop)]
pub struct ByteSource<'t> {
    unread: &'t [u8],
}

pub type ByteHost<'t, 'o> = TextHost<'o, ByteSource<'t>>;

impl<'t, 'o> ByteHost<'t, 'o> {
    pub fn new(text: &'t [u8], out: &'o mut [u32]) -> ByteHost<'t, 'o>
        ensures left { left result ≡ text.now }
        ensures written { written result ≡ [] }
        ensures room { room result ≡ length out.old }
        ensures out { result.out.buffer.now ≡ out.old }
    {
        TextHost::over(ByteSource { unread: text }, out)
    }
}

impl Source for ByteSource<'_> {
    ghost unread = { λ s. s.unread.now };

    fn ahead(&self, i: usize) -> Option<u32> {
        self.unread.get(i).copied().map(u32::from)
    }

    fn take(&mut self) -> Option<u32> {
        let (byte, rest) = self.unread.split_first()?;
        self.unread = rest;
        Some(u32::from(*byte))
    }

    fn row_within(&self, most: usize) -> Option<usize> {
        // no more of the text is looked at than this
        let near = self.unread.len().min(most.saturating_add(1));
        let row = newline(&self.unread[..near]).unwrap_or(near);
        (row <= most).then_some(row)
    }
}

// The place of the first newline.
fn newline(text: &[u8]) -> Option<usize>
    ensures { result ≡ position (λ c. c == 10) text.now }
{
    text.iter().position(|byte| *byte == b'\n')
}
