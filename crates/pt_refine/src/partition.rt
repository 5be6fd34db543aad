//! Partitions of the states that are split by marks.

ghost use Rattle.std.specs.Prelude.{◌≡◌, ◌≢◌, ℕ, ◌+◌, ◌<◌, ◌≤◌, ◌⊎◌, Bool, false, length, slice_index, IfOk, OnOk};
ghost use Rattle.std.specs.List.{Contains};
ghost use Rattle.pt_refine.specs.Halving.{SplitsBy};
ghost use Rattle.pt_refine.specs.Partitions.{IsPartition, IsMarked, IsUnmarked, KeepsClasses, Marks, Lists, MarksRow, Cuts};

use crate::keys::Classes;
use std::alloc::{AllocError, Global};

/// The states in the order of their classes.
#[derive(Drop)]
pub(crate) struct Partition {
    order: Vec<u32>,
    place: Vec<u32>,
    class: Vec<u32>,
    /// Class c has the places `starts[c]..ends[c]`, and the marked ones of its states are those before `marked[c]`.
    starts: Vec<u32>,
    ends: Vec<u32>,
    marked: Vec<u32>,
}

impl Partition {
    /// All states in one class.
    pub(crate) fn whole(alloc: Global, states: u32) -> Result<Partition, AllocError>
        requires some { 0 < states }
        requires few { states ≤ 65536 }
        ensures partition { IfOk result IsPartition }
        ensures unmarked { IfOk result IsUnmarked }
        ensures size { IfOk result (λ p. length p.class.items ≡ states) }
        ensures one { IfOk result (λ p. (q : ℕ) → q < states → slice_index p.class.items q ≡ 0) }
    {
        let order = up_to(alloc, states)?;
        let place = Vec::from_slice(alloc, &order)?;
        Ok(Partition {
            order,
            place,
            class: vec![in alloc; 0u32; states as usize]?,
            starts: vec![in alloc; 0u32; 1]?,
            ends: vec![in alloc; states; 1]?,
            marked: vec![in alloc; 0u32; 1]?,
        })
    }

    /// How many classes.
    pub(crate) fn count(&self) -> u32
        requires { IsPartition self.now }
        ensures { result ≡ length self.now.starts.items }
    {
        self.starts.len() as u32
    }

    /// The first place of a class.
    pub(crate) fn start(&self, class: u32) -> u32
        requires { class < length self.now.starts.items }
        ensures { result ≡ slice_index self.now.starts.items class }
    {
        self.starts[class as usize]
    }

    /// One more than the last place of a class.
    pub(crate) fn end(&self, class: u32) -> u32
        requires { class < length self.now.ends.items }
        ensures { result ≡ slice_index self.now.ends.items class }
    {
        self.ends[class as usize]
    }

    /// The state at a place.
    pub(crate) fn state(&self, at: u32) -> u32
        requires { at < length self.now.order.items }
        ensures { result ≡ slice_index self.now.order.items at }
    {
        self.order[at as usize]
    }

    /// The class of each state.
    pub(crate) fn into_classes(self) -> Classes
        ensures numbers { result.numbers.items ≡ self.class.items }
        ensures count { result.count ≡ length self.starts.items }
    {
        let count = self.starts.len();
        Classes {
            numbers: self.class,
            count,
        }
    }

    /// Splits each class into its states in a row and the rest: the smaller part of the two is a new class.
    pub(crate) fn split(&mut self, row: &[u32], touched: &mut Vec<u32>) -> Result<(), AllocError>
        requires partition { IsPartition self.old }
        requires unmarked { IsUnmarked self.old }
        requires row { (q : ℕ) → Contains row.now q → q < length self.old.class.items }
        ensures partition { OnOk result (IsPartition self.new) }
        ensures unmarked { OnOk result (IsUnmarked self.new) }
        ensures size { OnOk result (length self.new.class.items ≡ length self.old.class.items) }
        ensures grows { OnOk result (length self.old.starts.items ≤ length self.new.starts.items) }
        ensures splits { OnOk result (SplitsBy (length self.old.class.items) (length self.old.starts.items) (Contains row.now) (slice_index self.old.class.items) (slice_index self.new.class.items)) }
    {
        self.mark_all(row, touched)?;
        self.cut_all(touched)?;
        Ok(())
    }

    /// Marks the states of a row, and lists the classes that they are in.
    fn mark_all(&mut self, row: &[u32], touched: &mut Vec<u32>) -> Result<(), AllocError>
        requires partition { IsPartition self.old }
        requires unmarked { IsUnmarked self.old }
        requires row { (q : ℕ) → Contains row.now q → q < length self.old.class.items }
        ensures partition { OnOk result (IsPartition self.new) }
        ensures marks { OnOk result (MarksRow self.old self.new row.now touched.new.items) }
    {
        touched.clear();
        for state in row {
            self.mark_listed(*state, touched)?;
        }
        Ok(())
    }

    /// Marks a state, and lists its class where no other state of it is marked.
    fn mark_listed(&mut self, state: u32, touched: &mut Vec<u32>) -> Result<(), AllocError>
        requires partition { IsPartition self.old }
        requires state { state < length self.old.class.items }
        ensures partition { IsPartition self.new }
        ensures marks { Marks self.old self.new state }
        ensures lists { OnOk result (Lists self.old state touched.old.items touched.new.items) }
    {
        if !self.mark(state) {
            return Ok(());
        }
        touched.push(self.class[state as usize])?;
        Ok(())
    }

    /// Moves a state to the marked front of its class, if it is not there; says whether it is the first one there.
    fn mark(&mut self, state: u32) -> bool
        requires partition { IsPartition self.old }
        requires state { state < length self.old.class.items }
        ensures partition { IsPartition self.new }
        ensures marks { Marks self.old self.new state }
        ensures first { result ≡ false → (r : ℕ) × (r < length self.old.class.items) × (slice_index self.old.class.items r ≡ slice_index self.old.class.items state) × IsMarked self.old r }
    {
        let class = self.class[state as usize] as usize;
        let front = self.marked[class];
        let at = self.place[state as usize];
        if at < front {
            return false;
        }
        let other = self.order[front as usize];
        self.order[at as usize] = other;
        self.place[other as usize] = at;
        self.order[front as usize] = state;
        self.place[state as usize] = front;
        self.marked[class] = front + 1;
        front == self.starts[class]
    }

    /// Splits classes into their marked states and the rest.
    fn cut_all(&mut self, classes: &[u32]) -> Result<(), AllocError>
        requires partition { IsPartition self.old }
        requires classes { (c : ℕ) → Contains classes.now c → c < length self.old.starts.items }
        requires all { (q : ℕ) → q < length self.old.class.items → IsMarked self.old q → Contains classes.now (slice_index self.old.class.items q) }
        ensures partition { OnOk result (IsPartition self.new) }
        ensures unmarked { OnOk result (IsUnmarked self.new) }
        ensures size { OnOk result (length self.new.class.items ≡ length self.old.class.items) }
        ensures grows { OnOk result (length self.old.starts.items ≤ length self.new.starts.items) }
        ensures splits { OnOk result (SplitsBy (length self.old.class.items) (length self.old.starts.items) (IsMarked self.old) (slice_index self.old.class.items) (slice_index self.new.class.items)) }
    {
        for class in classes {
            self.cut(*class)?;
        }
        Ok(())
    }

    /// Splits a class into its marked states and the rest, unless one part is empty: the smaller part is a new class.
    fn cut(&mut self, class: u32) -> Result<(), AllocError>
        requires partition { IsPartition self.old }
        requires class { class < length self.old.starts.items }
        ensures partition { OnOk result (IsPartition self.new) }
        ensures cuts { OnOk result (Cuts self.old self.new class) }
    {
        let c = class as usize;
        let (start, front, end) = (self.starts[c], self.marked[c], self.ends[c]);
        if front == start {
            return Ok(());
        }
        if front == end {
            self.marked[c] = start;
            return Ok(());
        }
        let number = self.starts.len() as u32;
        let (new, rest) = smaller_first(start, front, end);
        self.starts.push(new.0)?;
        self.ends.push(new.1)?;
        self.marked.push(new.0)?;
        self.starts[c] = rest.0;
        self.ends[c] = rest.1;
        self.marked[c] = rest.0;
        renumber(&mut self.class, &self.order, new.0, new.1, number);
        Ok(())
    }
}

/// The places on both sides of a cut, those of the smaller side first.
fn smaller_first(start: u32, cut: u32, end: u32) -> ((u32, u32), (u32, u32))
    requires start { start ≤ cut }
    requires end { cut ≤ end }
    ensures { ((result.0 ≡ (start, cut)) × (result.1 ≡ (cut, end))) ⊎ ((result.0 ≡ (cut, end)) × (result.1 ≡ (start, cut))) }
{
    if cut - start <= end - cut {
        ((start, cut), (cut, end))
    } else {
        ((cut, end), (start, cut))
    }
}

/// The numbers below a bound.
fn up_to(alloc: Global, bound: u32) -> Result<Vec<u32>, AllocError>
    ensures len { IfOk result (λ v. length v.items ≡ bound) }
    ensures numbers { IfOk result (λ v. (i : ℕ) → i < bound → slice_index v.items i ≡ i) }
{
    let mut numbers = Vec::with_capacity(alloc, bound as usize)?;
    for number in 0..bound {
        numbers.push(number)?;
    }
    Ok(numbers)
}

/// Gives a number to the states at the places from `low` up to `high`.
fn renumber(class: &mut Vec<u32>, order: &[u32], low: u32, high: u32, number: u32)
    requires low { low ≤ high }
    requires high { high ≤ length order.now }
    requires within { (i : ℕ) → i < length order.now → slice_index order.now i < length class.old.items }
    ensures len { length class.new.items ≡ length class.old.items }
    ensures moved { (i : ℕ) → low ≤ i → i < high → slice_index class.new.items (slice_index order.now i) ≡ number }
    ensures stays { (q : ℕ) → ((i : ℕ) → low ≤ i → i < high → slice_index order.now i ≢ q) → slice_index class.new.items q ≡ slice_index class.old.items q }
{
    for at in low..high {
        class[order[at as usize] as usize] = number;
    }
}
