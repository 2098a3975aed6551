//! States that were reached, packed in little memory.
ghost use Rattle.std.specs.Prelude.{◌≡◌, ◌≢◌, ◌+◌, ◌<◌, ◌≤◌, [], ◌∷◌, ◌++◌, false, Some, IsTrue, IfOk, OnOk, OnErr, length, slice_get, take, drop, map};
ghost use Rattle.asm_explore.specs.code.PackedNodes.{Node, begin_of, between, contents_of, GrowsBy, IsFront};
ghost use Rattle.asm_explore.specs.code.StateHashes.{hash_of_contents};

use crate::same_result::is_same_value;
use crate::states::byte::{byte_of, content_of, is_of};
use crate::states::index::{NO_CONTENTS, with_content};
use asm_state::state::State;
use asm_state::word::Word;
use std::alloc::{AllocError, Global};
use std::marker::Model;

/// Where the contents of a node end, and where it comes from.
#[derive(Clone, Copy)]
pub(crate) struct NodeRecord {
    /// Where its contents end that are bytes.
    bytes_end: usize,
    /// Where those end that are words.
    words_end: usize,
    /// The number of the node that the step to it began in.
    from: u32,
    /// The number of that step, or 0 for the state in which runs begin.
    depth: u32,
}

/// States that were reached. The contents of each are bytes, up to the first one for which no byte
/// stands, and words from there on.
#[derive(Drop)]
pub struct Nodes {
    bytes: Vec<u8>,
    words: Vec<Word>,
    links: Vec<NodeRecord>,
}

impl Model for Nodes {
    ghost use Rattle.std.specs.Prelude.{List, length};
    ghost use Rattle.asm_explore.specs.code.PackedNodes.{Node, nodes_from, ArePacked};

    ghost Value = { List Node };

    ghost view = { λ n. nodes_from n.bytes.items n.words.items 0 0 n.links.items };

    ghost invariant = { λ n. ArePacked (length n.bytes.items) (length n.words.items) 0 0 n.links.items };
}

impl Nodes {
    /// No state.
    pub(crate) fn new(alloc: Global) -> Nodes
        ensures { result ≡ [] }
    {
        Nodes {
            bytes: Vec::new(alloc),
            words: Vec::new(alloc),
            links: Vec::new(alloc),
        }
    }

    /// No state, with room for `states` states with `count` contents each, if they are bytes.
    pub(crate) fn with_capacity(
        alloc: Global,
        states: usize,
        count: usize,
    ) -> Result<Nodes, AllocError>
        ensures { IfOk result (λ nodes. nodes ≡ []) }
    {
        Ok(Nodes {
            bytes: Vec::with_capacity(alloc, states.saturating_mul(count))?,
            words: Vec::new(alloc),
            links: Vec::with_capacity(alloc, states)?,
        })
    }

    /// How many there are.
    #[inline(always)]
    pub fn len(&self) -> usize
        ensures { result ≡ length self.now }
    {
        self.links.len()
    }

    /// How many bytes of memory they take.
    pub(crate) fn bytes(&self) -> usize {
        let words = self.words.capacity().saturating_mul(size_of::<Word>());
        let links = self
            .links
            .capacity()
            .saturating_mul(size_of::<NodeRecord>());
        self.bytes
            .capacity()
            .saturating_add(words)
            .saturating_add(links)
    }

    /// The number of the node that the step to it began in.
    pub fn from(&self, number: usize) -> usize
        requires { number < length self.now }
        ensures { (n : Node) → slice_get self.now number ≡ Some n → result ≡ n.from }
    {
        self.links[number].from as usize
    }

    /// The number of the step to it.
    pub fn depth(&self, number: usize) -> u32
        requires { number < length self.now }
        ensures { (n : Node) → slice_get self.now number ≡ Some n → result ≡ n.depth }
    {
        self.links[number].depth
    }

    /// Its contents: bytes, and the words after them.
    fn contents(&self, number: usize) -> (&[u8], &[Word])
        requires { number < length self.now }
        ensures { (n : Node) → slice_get self.now number ≡ Some n → contents_of result.0.now result.1.now ≡ n.state }
    {
        let (b, w) = begin(self.links.as_slice(), number);
        let link = self.links[number];
        let bytes = part(self.bytes.as_slice(), b, link.bytes_end);
        let words = part(self.words.as_slice(), w, link.words_end);
        (bytes, words)
    }

    /// Whether it has this state.
    pub(crate) fn has_state(&self, number: usize, state: &State) -> bool
        requires number { number < length self.now }
        requires whole { (n : Node) → slice_get self.now number ≡ Some n → length n.state ≡ length state.now }
        ensures same { IsTrue result → (n : Node) → slice_get self.now number ≡ Some n → n.state ≡ state.now }
        ensures other { result ≡ false → (n : Node) → slice_get self.now number ≡ Some n → n.state ≢ state.now }
    {
        let (bytes, words) = self.contents(number);
        are_contents(bytes, words, state)
    }

    /// Whether a node has the same state as one of others.
    pub(crate) fn is_same_state(&self, number: usize, others: &Nodes, other: usize) -> bool
        requires number { number < length self.now }
        requires other { other < length others.now }
        ensures { IsTrue result → (n m : Node) → slice_get self.now number ≡ Some n → slice_get others.now other ≡ Some m → n.state ≡ m.state }
    {
        let (bytes, words) = self.contents(number);
        let (other_bytes, other_words) = others.contents(other);
        bytes == other_bytes && are_same(words, other_words)
    }

    /// The hash of its contents.
    pub(crate) fn hash(&self, number: usize) -> u64
        requires { number < length self.now }
        ensures { (n : Node) → slice_get self.now number ≡ Some n → result ≡ hash_of_contents n.state }
    {
        let (bytes, words) = self.contents(number);
        hash_of_parts(bytes, words)
    }

    /// Its state. Another one with as many contents lends its form.
    pub fn state(&self, alloc: Global, number: usize, like: &State) -> Result<State, AllocError>
        requires number { number < length self.now }
        requires whole { (n : Node) → slice_get self.now number ≡ Some n → length n.state ≡ length like.now }
        ensures { IfOk result (λ state. (n : Node) → slice_get self.now number ≡ Some n → state ≡ n.state) }
    {
        let (bytes, words) = self.contents(number);
        unpacked(alloc, bytes, words, like)
    }

    /// Adds a state of `count` contents.
    pub(crate) fn push(
        &mut self,
        state: &State,
        count: usize,
        from: u32,
        depth: u32,
    ) -> Result<(), AllocError>
        requires { count ≡ length state.now }
        ensures ok { OnOk result (self.new ≡ self.old ++ record { state = state.now; from = from; depth = depth } ∷ []) }
        ensures err { OnErr result (self.new ≡ self.old) }
    {
        let (b, w) = begin(self.links.as_slice(), self.links.len());
        self.bytes.truncate(b);
        self.words.truncate(w);
        put_bytes(state, count, &mut self.bytes)?;
        let first = self.bytes.len() - b;
        put_words(state, first, count, &mut self.words)?;
        self.links.push(NodeRecord {
            bytes_end: self.bytes.len(),
            words_end: self.words.len(),
            from,
            depth,
        })?;
        Ok(())
    }
}

/// What is between two places.
fn part<T>(items: &[T], start: usize, end: usize) -> &[T]
    requires rise { start ≤ end }
    requires within { end ≤ length items.now }
    ensures { result.now ≡ between items.now start end }
{
    &items[start..end]
}

/// Where the contents of the node with this number begin: bytes, and words.
fn begin(links: &[NodeRecord], number: usize) -> (usize, usize)
    requires { number ≤ length links.now }
    ensures { result ≡ begin_of 0 0 links.now number }
{
    if number == 0 {
        return (0, 0);
    }
    let before = links[number - 1];
    (before.bytes_end, before.words_end)
}

/// The hash of contents.
fn hash_of_parts(bytes: &[u8], words: &[Word]) -> u64
    ensures { result ≡ hash_of_contents (contents_of bytes.now words.now) }
{
    let mut hash = NO_CONTENTS;
    for i in 0..bytes.len() {
        hash = with_content(hash, content_of(bytes[i]).code());
    }
    for i in 0..words.len() {
        hash = with_content(hash, words[i].code());
    }
    hash
}

/// Whether the state has these contents.
fn are_contents(bytes: &[u8], words: &[Word], state: &State) -> bool
    requires { length bytes.now + length words.now ≡ length state.now }
    ensures same { IsTrue result → contents_of bytes.now words.now ≡ state.now }
    ensures other { result ≡ false → contents_of bytes.now words.now ≢ state.now }
{
    for i in 0..bytes.len() {
        if !is_of(bytes[i], state.content(i)) {
            return false;
        }
    }
    for i in 0..words.len() {
        if !is_same_value(words[i], state.content(bytes.len() + i)) {
            return false;
        }
    }
    true
}

/// Whether the words are the same.
fn are_same(left: &[Word], right: &[Word]) -> bool
    ensures { IsTrue result → left.now ≡ right.now }
{
    if left.len() != right.len() {
        return false;
    }
    for i in 0..left.len() {
        if !is_same_value(left[i], right[i]) {
            return false;
        }
    }
    true
}

/// The state with these contents.
fn unpacked(alloc: Global, bytes: &[u8], words: &[Word], like: &State) -> Result<State, AllocError>
    requires { length bytes.now + length words.now ≡ length like.now }
    ensures { IfOk result (λ state. state ≡ contents_of bytes.now words.now) }
{
    let mut state = like.copy(alloc)?;
    for i in 0..bytes.len() {
        state.set(i, content_of(bytes[i]));
    }
    for i in 0..words.len() {
        state.set(bytes.len() + i, words[i]);
    }
    Ok(state)
}

/// Adds the first contents as bytes, up to the first one for which no byte stands.
fn put_bytes(state: &State, count: usize, bytes: &mut Vec<u8>) -> Result<(), AllocError>
    requires { count ≡ length state.now }
    ensures more { GrowsBy (IsFront state.now) bytes.old.items bytes.new.items }
{
    for n in 0..count {
        let Some(byte) = byte_of(state.content(n)) else {
            return Ok(());
        };
        bytes.push(byte)?;
    }
    Ok(())
}

/// Adds the contents from one on as words.
fn put_words(
    state: &State,
    first: usize,
    count: usize,
    words: &mut Vec<Word>,
) -> Result<(), AllocError>
    requires whole { count ≡ length state.now }
    requires first { first ≤ count }
    ensures more { GrowsBy (λ more. Unit {0}) words.old.items words.new.items }
    ensures ok { OnOk result (words.new.items ≡ words.old.items ++ drop first state.now) }
{
    for n in first..count {
        words.push(state.content(n))?;
    }
    Ok(())
}
