// A stack in lent words.
ghost use Rattle.std.specs.Prelude.{◌^◌, ◌<◌, ◌≤◌, length};

#[derive(Drop)]
pub struct Stack<'w> {
    // lent and of fixed size, since a run allocates nothing: so the number in use stands beside them
    words: &'w mut [u64],
    // how many words are in use, from the front
    len: usize,
    ghost within: { len ≤ length words.now },
    ghost fits: { length words.now < 2 ^ 64 },
}

impl<'w> Stack<'w> {
    ghost use Rattle.std.specs.Prelude.{◌≡◌, ◌+◌, [], ◌∷◌, ◌++◌, reverse, take, drop, slice_index, slice_set};
    ghost use Rattle.memory.specs.Stacks.{items, newest_first, word_count, Sized, from_bottom};

    pub fn new(words: &'w mut [u64]) -> Stack<'w>
        ensures items { items result ≡ [] }
        ensures count { word_count result ≡ length words.old }
    {
        Stack { words, len: 0 }
    }

    // What is known of every stack: no more words are in use than are lent, and its items are these, the newest first.
    #[tactic(auto, using(crate::proofs::Words::turned_newest))]
    pub fn sized(&self)
        ensures sized { Sized self.now }
        ensures items { items self.now ≡ newest_first self.now.words.now self.now.len }
    {}

    pub fn len(&self) -> usize
        ensures { result ≡ length (items self.now) }
    {
        self.len
    }

    pub fn push(&mut self, word: u64)
        requires room { length (items self.old) < word_count self.old }
        ensures items { items self.new ≡ word ∷ items self.old }
        ensures count { word_count self.new ≡ word_count self.old }
    {
        self.words[self.len] = word;
        self.len += 1;
    }

    pub fn pop(&mut self) -> u64
        requires some { 0 < length (items self.old) }
        ensures items { items self.old ≡ result ∷ items self.new }
        ensures count { word_count self.new ≡ word_count self.old }
    {
        self.len -= 1;
        self.words[self.len]
    }

    // The word with k newer ones above it.
    pub fn top(&self, k: usize) -> u64
        requires some { k < length (items self.now) }
        ensures { result ≡ slice_index (items self.now) k }
    {
        self.words[self.len - 1 - k]
    }

    // Word i from the bottom.
    pub fn get(&self, i: usize) -> u64
        requires some { i < length (items self.now) }
        ensures { result ≡ slice_index (items self.now) (from_bottom (items self.now) i) }
    {
        self.words[i]
    }

    // Puts a word in place of word `at` from the bottom.
    pub fn set(&mut self, at: usize, word: u64)
        requires some { at < length (items self.old) }
        ensures items { items self.new ≡ slice_set (items self.old) (from_bottom (items self.old) at) word }
        ensures count { word_count self.new ≡ word_count self.old }
    {
        self.words[at] = word;
    }

    // Drops the n newest words.
    pub fn cut(&mut self, n: usize)
        requires some { n ≤ length (items self.old) }
        ensures items { items self.new ≡ drop n (items self.old) }
        ensures count { word_count self.new ≡ word_count self.old }
    {
        self.len -= n;
    }

    // The n newest words, oldest first.
    #[tactic(auto, using(crate::proofs::Words::turning))]
    pub fn newest(&self, n: usize) -> &[u64]
        requires some { n ≤ length (items self.now) }
        ensures { result.now ≡ reverse (take n (items self.now)) }
    {
        &self.words[self.len - n..self.len]
    }

    // Puts the n newest words of another stack on top, in their order.
    #[tactic(auto, using(crate::proofs::Words::turning))]
    pub fn append(&mut self, from: &Stack, n: usize)
        requires some { n ≤ length (items from.now) }
        requires room { length (items self.old) + n ≤ word_count self.old }
        ensures items { items self.new ≡ take n (items from.now) ++ items self.old }
        ensures count { word_count self.new ≡ word_count self.old }
    {
        let start = self.len;
        self.len += n;
        self.words[start..self.len].copy_from_slice(from.newest(n));
    }
}
