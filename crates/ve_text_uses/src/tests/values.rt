ghost use Rattle.std.specs.Prelude.{IfOk};
ghost use Rattle.ve_pres.specs.Drafts.{IsOpen};
ghost use Rattle.ve_value.specs.Shapes.{AreWritten};

mod algebra;
mod modules;

use std::alloc::Global;
use ve_field::Field;
use ve_lex::{LexFault, Placed};
use ve_pres::Presentation;

// Over the field of 5 elements the letters x (0), its inverse X (1) and a (2), and two generators.
fn presentation(alloc: Global) -> Option<Presentation> {
    let mut presentation = Presentation::new(alloc, Field::new(5)?);
    if declares(&mut presentation) {
        return Some(presentation);
    }
    None
}

#[tactic(auto, unfolding(ve_theory::specs::Validity::is_name))]
fn declares(presentation: &mut Presentation) -> bool
    requires { IsOpen presentation.old }
{
    presentation.add_pair("x", "X").is_ok()
        && presentation.add_letter("a").is_ok()
        && presentation.set_roots(2).is_ok()
}

fn tokens<'a>(alloc: Global, text: &'a str) -> Result<Vec<Placed<'a>>, LexFault>
    ensures { IfOk result (λ tokens. AreWritten tokens.items) }
{
    ve_lex::tokens(alloc, text.as_bytes())
}
