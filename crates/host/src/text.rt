// A host that reads the characters of a source and writes to a buffer.
use crate::Host;
use crate::output::Output;
use crate::source::Source;

#[derive(Drop)]
pub struct TextHost<'o, S> {
    source: S,
    out: Output<'o>,
}

impl<'o, S: Source> TextHost<'o, S> {
    ghost use Rattle.std.specs.Prelude.{◌≡◌, [], length};
    ghost use Rattle.host.specs.Host.{written, room};

    pub(crate) fn over(source: S, out: &'o mut [u32]) -> TextHost<'o, S>
        ensures source { result.source ≡ source }
        ensures written { written result ≡ [] }
        ensures room { room result ≡ length out.old }
        ensures out { result.out.buffer.now ≡ out.old }
    {
        TextHost {
            source,
            out: Output::new(out),
        }
    }

    // What is written so far.
    pub fn output(&self) -> &[u32]
        ensures { result.now ≡ written self.now }
    {
        self.out.text()
    }
}

impl<S: Source> Host for TextHost<'_, S> {
    ghost use Rattle.host.specs.Host as host;

    ghost left = { λ h. S.unread h.source };

    ghost written = { host.written };

    ghost room = { host.room };

    fn ahead(&self, i: usize) -> Option<u32> {
        self.source.ahead(i)
    }

    fn take(&mut self) -> Option<u32> {
        self.source.take()
    }

    fn free(&self) -> usize {
        self.out.free()
    }

    fn put(&mut self, c: u32) -> bool {
        self.out.put(c)
    }

    fn row_within(&self, most: usize) -> Option<usize> {
        self.source.row_within(most)
    }
}
