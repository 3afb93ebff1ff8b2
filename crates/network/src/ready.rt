ghost use Rattle.network.specs.Ready.{Ready};

use super::Element;

/// The elements of a network that is ready to be worked.
#[derive(Clone, Copy)]
pub struct ReadyNetwork<'a> {
    pub elements: &'a [Element],
    ghost ready: { ∥ Ready elements.now ∥₁ },
}
