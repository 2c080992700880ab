ghost use Rattle.std.specs.Prelude.{◌+◌, ◌≤◌};
ghost use Rattle.workspace.specs.Layout.{pending_at};

// The slots from `first` on, `count` of them, among those that expressions may read.
#[derive(Clone, Copy)]
pub struct Group {
    pub first: usize,
    pub count: u32,
    ghost below: { first + count ≤ pending_at },
}
