// Which reference a function works on: the PIN or the PUK, each as a type. 01 counts their tries left apart, and gives each its form.
ghost use Rattle.std.specs.Prelude.{◌≡◌, ℕ, true, false, ◌+◌, ◌≤◌, MatchOption, refl};
ghost use Rattle.std.proofs.Common.{rules};
ghost use Rattle.rules.specs.Command.{Which, the_pin, the_puk};
ghost use Rattle.reference.specs.Place.{place_of};
ghost use Rattle.pin.specs.Attempt.{form_of};

pub trait Secret: Copy {
    // The book's name of it.
    ghost which: { Which };

    ghost AT: { ℕ };

    // Its ten bytes in the store start here.
    const AT: usize;

    // The eight bytes of a value in its form.
    fn formed(d: &[u8]) -> Option<&[u8; 8]>
        ensures { MatchOption result (form_of which d.now ≡ false) (λ v. (form_of which d.now ≡ true) × (v.now ≡ d.now)) };

    // Laws: it is the book's place, and it lies within a store.
    ghost placed: { AT ≡ place_of which };

    ghost within: { AT + 10 ≤ 33400 };
}

#[derive(Clone, Copy)]
pub struct Pin;

impl Secret for Pin {
    ghost which = { the_pin };

    ghost AT = { 8 };

    const AT: usize = 8;

    #[tactic(auto, unfolding(rules::specs::Reference::pin_form))]
    fn formed(d: &[u8]) -> Option<&[u8; 8]> {
        if pinform::pin_form(d) {
            d.as_array()
        } else {
            None
        }
    }

    ghost placed = { refl };

    ghost within = { Prim.search rules };
}

// A PUK is any eight bytes.
#[derive(Clone, Copy)]
pub struct Puk;

impl Secret for Puk {
    ghost which = { the_puk };

    ghost AT = { 18 };

    const AT: usize = 18;

    #[tactic(auto, unfolding(rules::specs::Reference::puk_form))]
    fn formed(d: &[u8]) -> Option<&[u8; 8]> {
        d.as_array()
    }

    ghost placed = { refl };

    ghost within = { Prim.search rules };
}
