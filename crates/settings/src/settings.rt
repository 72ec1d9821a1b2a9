// Settings within their ranges.
ghost use Rattle.std.specs.Prelude.{◌≤◌};

pub mod check;

#[derive(Clone, Copy)]
pub struct Settings {
    pub frames: u16,
    pub long: u16,
    pub behind: u16,
    pub nth: u16,
    pub tracked: u16,
    pub front: u16,
    ghost frames_least: { 1 ≤ frames },
    ghost frames_most: { frames ≤ 1024 },
    ghost long_least: { 2 ≤ long },
    ghost long_most: { long ≤ 4096 },
    ghost behind_least: { 1 ≤ behind },
    ghost behind_most: { behind ≤ 4095 },
    ghost nth_least: { 1 ≤ nth },
    ghost nth_most: { nth ≤ long },
    ghost tracked_least: { 1 ≤ tracked },
    ghost tracked_most: { tracked ≤ 200 },
    ghost front_most: { front ≤ 1024 },
}
