// The level of a workspace, and the guard that restores it.
ghost use Rattle.std.specs.Prelude.{◌≡◌};

// Terms before `at` are somebody else's.
#[derive(Clone, Copy)]
pub struct Level {
    pub at: usize,
}

// Holds a level while work is done above it, and puts it back on every way out.
pub struct Held<'l> {
    pub level: &'l mut Level,
    pub old: Level,
}

impl Drop for Held<'_> {
    fn drop(self)
        ensures { self.exit.0.now ≡ self.entry.old }
    {
        *self.level = self.old;
        let Held { level: _, old: _ } = self;
    }
}
