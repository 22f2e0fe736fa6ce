// What a script reads characters from and writes characters to.
#![tactic(auto)]

ghost use Rattle.std.specs.Prelude.{◌≡◌, ℕ, ◌-◌, List, [], ◌∷◌, ◌++◌, if◌then◌else◌};
ghost use Rattle.host.specs.Text.{item, first, rest, takes, row_within};

pub mod bytes;
mod output;
pub mod source;
#[cfg(test)]
mod tests;
pub mod text;
pub mod tiles;

pub const NEWLINE: u32 = '\n' as u32;

// The greatest number that is a character.
pub const LAST_CHARACTER: u32 = char::MAX as u32;

pub trait Host {
    // the characters still unread
    ghost left: { Self → List ℕ };

    // the characters written so far
    ghost written: { Self → List ℕ };

    // how many more characters it takes
    ghost room: { Self → ℕ };

    // Character i of those unread, which stay unread.
    fn ahead(&self, i: usize) -> Option<u32>
        ensures { result ≡ item (left self.now) i };

    // Reads the next character.
    fn take(&mut self) -> Option<u32>
        ensures value { result ≡ first (left self.old) }
        ensures left { left self.new ≡ rest (left self.old) }
        ensures written { written self.new ≡ written self.old }
        ensures room { room self.new ≡ room self.old };

    fn free(&self) -> usize
        ensures { result ≡ room self.now };

    // Writes a character, and says whether there was room and it is one. A `bool` is all that the interface gives: why it is no, `free` and the character itself say.
    fn put(&mut self, c: u32) -> bool
        ensures value { result ≡ takes (room self.old) c }
        ensures left { left self.new ≡ left self.old }
        ensures written { written self.new ≡ (if result then written self.old ++ (c ∷ []) else written self.old) }
        ensures room { room self.new ≡ (if result then room self.old - 1 else room self.old) };

    // The length of the row before the next newline or the end, if it is at most `most`.
    fn row_within(&self, most: usize) -> Option<usize>
        ensures { result ≡ row_within (left self.now) most }
    {
        // for hosts that have no quicker way; the interface is by index, and `find` over it was tried: its closure would want a contract
        for i in 0..=most {
            let Some(c) = self.ahead(i) else {
                return Some(i);
            };
            if c == NEWLINE {
                return Some(i);
            }
        }
        None
    }
}
