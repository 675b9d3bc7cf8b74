ghost use Rattle.std.specs.Prelude.{◌≡◌, ◌<◌};
ghost use Rattle.sample_scene.specs.Draws.{following, given_by};

/// A sequence of pseudo-random numbers.
#[derive(Clone, Copy)]
pub struct Draws {
    /// What the next is made from.
    pub state: u32,
}

#[tactic(auto, unfolding(crate::specs::Draws::following))]
fn following(state: u32) -> u32
    ensures { result ≡ following state }
{
    ((1_103_515_245 * u64::from(state) + 12_345) % 2_147_483_648) as u32
}

impl Draws {
    /// The next of them, which is below 32,768.
    pub fn draw(&mut self) -> u32
        ensures state { self.new.state ≡ following self.old.state }
        ensures value { result ≡ given_by self.new.state }
    {
        self.state = following(self.state);
        self.state / 65_536
    }
}
