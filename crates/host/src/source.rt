// Where a host's characters come from.
ghost use Rattle.std.specs.Prelude.{◌≡◌, ℕ, List};
ghost use Rattle.host.specs.Text.{item, first, rest, row_within};

pub trait Source {
    // the characters still unread
    ghost unread: { Self → List ℕ };

    // Character i of those unread, which stay unread.
    fn ahead(&self, i: usize) -> Option<u32>
        ensures { result ≡ item (unread self.now) i };

    // Reads the next character.
    fn take(&mut self) -> Option<u32>
        ensures value { result ≡ first (unread self.old) }
        ensures unread { unread self.new ≡ rest (unread self.old) };

    // The length of the row before the next newline or the end, if it is at most `most`.
    fn row_within(&self, most: usize) -> Option<usize>
        ensures { result ≡ row_within (unread self.now) most };
}
