// What a clock writes, and how a statement ends.
#![tactic(auto)]

ghost use Rattle.std.specs.Prelude.{◌≡◌, List, ℕ, ◌+◌, ◌<◌, ◌≤◌, length, set, get_or};
ghost use Rattle.meaning.specs.Clock.{waits, done, at, left_of, nowhere};
ghost use Rattle.runs.specs.Run.{Run, entry_of, entry_from, window, least_from, least_of, run, then_run, looped_run, caught_run, closed_run, latest, is_jump, is_waiting};
ghost use Rattle.runs.specs.Buffer.{gathers, Holds, Comes, Looked, Wiped};

// Where an activity stands: the number of a statement or case test plus 1, or 0, and the clocks left of a delay.
// rows stores and index hashes these two fields (`row_in`, `hash_of`), so nowhere is a place of 0 and no Option.
#[derive(Clone, Copy)]
pub struct Entry {
    pub place: u16,
    pub left: u8,
}

impl Entry {
    pub const NOWHERE: Entry = Entry { place: 0, left: 0 };

    // The clocks left of a delay of n.
    fn left_of(self, n: u8) -> u8
        ensures { result ≡ left_of n (entry_from self) }
    {
        if self.place == 0 || self.left == 0 {
            n
        } else {
            self.left
        }
    }

    // The number where it stands, if that is from i on and below m; else m.
    fn nearer(self, i: u16, m: u16) -> u16
        ensures { result ≡ least_of (entry_from self) i m }
    {
        if self.place == 0 {
            return m;
        }
        let n = self.place - 1;
        if i <= n && n < m { n } else { m }
    }
}

// How a statement ends: it has finished, at an `exit`, at a `break`, it waits and has finished then, or it waits and stands
// somewhere then. Of branches, the one that comes last here tells how they end together.
#[derive(Clone, Copy, PartialEq, Eq, PartialOrd, Ord)]
pub enum How {
    Finished,
    Exit,
    Break,
    Waits,
    Stands,
}

impl How {
    pub fn is_jump(self) -> bool
        ensures { result ≡ is_jump self }
    {
        matches!(self, How::Exit | How::Break)
    }

    pub fn is_waiting(self) -> bool
        ensures { result ≡ is_waiting self }
    {
        matches!(self, How::Waits | How::Stands)
    }

    pub fn later(self, other: How) -> How
        ensures { result ≡ latest self other }
    {
        self.max(other)
    }

    // A `break` ends the switch or the parallel that it stands in.
    pub fn caught(self) -> How
        ensures { (x : Run) (q : ℕ) (l : Buffer) → Holds x q l self → Holds (caught_run x) q l result }
    {
        match self {
            How::Break => How::Finished,
            h => h,
        }
    }

    // The tries of the branches so far, and of one that ended so.
    pub fn gathered(self, have: u32, new: u32) -> u32
        ensures { result ≡ gathers have new self }
    {
        if self.is_waiting() { have | new } else { have }
    }
}

// The entries of the next state, the tries of what waits, and the input bits that were looked at.
// The entries' number stays in the clauses: `long` of `Holds`, `Open` and `Wiped` (specs/Buffer) says it of each buffer.
#[derive(Clone, Copy)]
pub struct Buffer {
    pub entries: [Entry; 8],
    pub ones: u32,
    pub zeros: u32,
    pub looked: u32,
}

impl Buffer {
    pub const BLANK: Buffer = Buffer {
        entries: [Entry::NOWHERE; 8],
        ones: 0,
        zeros: 0,
        looked: 0,
    };

    pub fn put(&mut self, b: u16, n: u16, left: u8)
        requires { (n < 65535) × (b < 8) }
        ensures { self.new ≡ record self.old { entries = set self.old.entries b (entry_of (at n left)) } }
    {
        self.entries[b as usize] = Entry { place: n + 1, left };
    }

    pub fn tried(&mut self, ones: u32, zeros: u32) -> How
        requires { length self.old.entries ≡ 8 }
        ensures { (b : ℕ) → Comes (waits (record { ones = ones; zeros = zeros }) done) 0 b self.old self.new result }
    {
        self.ones = ones;
        self.zeros = zeros;
        How::Waits
    }

    pub fn look(&mut self, m: u8)
        requires { length self.old.entries ≡ 8 }
        ensures { Looked m self.old self.new }
    {
        self.looked |= u32::from(m);
    }

    // What ended as h goes on with what lies from m to e.
    pub fn then_at(&mut self, b: u16, m: u16, e: u16, h: How) -> How
        requires { b < 8 }
        ensures { (x : Run) (q : ℕ) → Holds x q self.old h → Holds (then_run x b m e) q self.new result }
    {
        match h {
            How::Waits if m < e => {
                self.put(b, m, 0);
                How::Stands
            }
            _ => h,
        }
    }

    // The body of the loop n ended as h.
    pub fn looped(&mut self, b: u16, n: u16, h: How) -> How
        requires { (n < 65535) × ((b < 8) × (length self.old.entries ≡ 8)) }
        ensures { (x : Run) (q : ℕ) → Holds x q self.old h → Holds (looped_run x b n) q self.new result }
    {
        match h {
            How::Exit => How::Finished,
            How::Break | How::Stands => h,
            How::Waits => {
                self.put(b, n, 0);
                How::Stands
            }
            How::Finished => {
                self.tried(0, 0);
                self.put(b, n, 0);
                How::Stands
            }
        }
    }

    // The branches ended as h, with these tries; those that disagree are dropped.
    pub fn closed(&mut self, h: How, ones: u32, zeros: u32) -> How
        requires { length self.old.entries ≡ 8 }
        ensures { Holds (closed_run (run h self.old.entries ones zeros)) self.old.looked self.new result }
    {
        self.ones = ones ^ (ones & zeros);
        self.zeros = zeros ^ (zeros & ones);
        h
    }

    // Nothing stands from b on.
    pub fn wipe(&mut self, b: u16)
        requires { (b ≤ 8) × (length self.old.entries ≡ 8) }
        ensures { Wiped b self.old self.new }
    {
        self.entries[b as usize..].fill(Entry::NOWHERE);
    }
}

// The clocks left of a delay of n whose activity is b.
pub fn left_of(old: &[Entry; 8], b: u16, n: u8) -> u8
    requires { (b < 8) × (length old.now ≡ 8) }
    ensures { (w : ℕ) → 1 ≤ w → result ≡ left_of n (get_or (window old.now b w) 0 nowhere) }
{
    old[b as usize].left_of(n)
}

// The least number from i on where one of the w activities from b on stands, or m.
pub fn least_at(old: &[Entry; 8], b: u16, w: u16, i: u16, m: u16) -> u16
    requires { (b + w ≤ 8) × (length old.now ≡ 8) }
    ensures { result ≡ least_from (window old.now b w) i m }
{
    let activities = &old[b as usize..(b + w) as usize];
    activities.iter().rev().fold(m, |m, x| x.nearer(i, m))
}
