ghost use Rattle.std.specs.Prelude.{◌≡◌};
ghost use Rattle.refusals.specs.declared.refusal.Refusal.{Refusal};

use crate::refusal::Refusal;

/// What each layer's fault meets: it stands for one refusal.
pub trait Fault {
    /// The refusal that the fault stands for.
    ghost stands: { Self → Refusal };

    fn refusal(&self) -> Refusal
        ensures { result ≡ stands self.now };
}
