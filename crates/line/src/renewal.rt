// What puts a page at the end of a line. It is told by types: `Line<ByUse>` says what a constant's
// `Line<true>` would not.
ghost use Rattle.std.specs.Prelude.{◌≡◌, Bool, true, false};

pub trait Renewal {
    // Whether a hit does; a load always does.
    ghost renews: { Bool };

    fn renews(&self) -> bool
        ensures { result ≡ renews };
}

// Only a load.
#[derive(Drop)]
pub struct ByLoad;

impl Renewal for ByLoad {
    ghost renews = { false };

    fn renews(&self) -> bool {
        false
    }
}

// A load and a hit.
#[derive(Drop)]
pub struct ByUse;

impl Renewal for ByUse {
    ghost renews = { true };

    fn renews(&self) -> bool {
        true
    }
}
