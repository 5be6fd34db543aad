// Numbers that look random.
ghost use Rattle.std.specs.Prelude.{◌≡◌, ◌<◌};
ghost use Rattle.pt_drill.specs.Drill.{next, drawn, after_group, group_at};

/// The numbers of a group of commands.
#[derive(Clone, Copy)]
pub(crate) struct Group {
    pub(crate) a: u32,
    pub(crate) b: u32,
    pub(crate) c: u32,
    pub(crate) m: u32,
    pub(crate) d: u32,
    pub(crate) e: u32,
}

/// The linear congruential generator of the C standard's example, with a state of 31 bits.
#[derive(Drop)]
pub(crate) struct Draws {
    pub(crate) state: u32,
}

impl Draws {
    /// A number below `n`, from the upper bits of the next state.
    fn draw(&mut self, n: u32) -> u32
        requires { 0 < n }
        ensures state { self.new.state ≡ next self.old.state }
        ensures drawn { result ≡ drawn n self.new.state }
        ensures below { result < n }
    {
        self.state = ((u64::from(self.state) * 1_103_515_245 + 12_345) % 2_147_483_648) as u32;
        self.state / 65_536 % n
    }

    /// The numbers of the next group.
    pub(crate) fn group(&mut self) -> Group
        ensures state { self.new.state ≡ after_group self.old.state }
        ensures numbers { result ≡ group_at self.old.state }
    {
        let a = 1 + self.draw(5);
        let b = 1 + self.draw(5);
        let c = self.draw(32);
        let m = 2 + self.draw(6);
        let d = self.draw(7);
        let e = self.draw(32);
        Group { a, b, c, m, d, e }
    }
}
