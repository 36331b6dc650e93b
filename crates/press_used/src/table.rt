// What the uses of each node are on, in a table.
ghost use Rattle.std.specs.Prelude.{◌≡◌, ℕ, ◌<◌, length};
ghost use Rattle.press_spec.specs.Univalents.{used_too, used_as};
ghost use Rattle.press_reach.specs.Literals.{literal_in};
ghost use Rattle.press_used.specs.Table.{use_in, use_at};

use press_reach::literal::Literal;
use sheet::NodeNo;

// There is no use, one, two or more that are all on one and the same literal, or two or more that are not.
#[derive(Clone, Copy)]
pub enum Used {
    Unused,
    Once(Literal),
    Often(Literal),
    Mixed,
}

#[tactic(auto, unfolding(crate::specs::Table::use_at))]
pub fn used_at(used: &[Used], n: NodeNo) -> Used
    requires { n.0 < length used.now }
    ensures { use_in result ≡ use_at used.now n.0 }
{
    used[n.index()]
}

// One use more, on l.
#[tactic(auto, unfolding(crate::specs::Table::use_in, press_spec::specs::Univalents::used_too, press_reach::specs::Literals::literal_in, clause::specs::Clauses::same_literal))]
fn used_too(l: Literal, u: Used) -> Used
    ensures { use_in result ≡ used_too (literal_in l) (use_in u) }
{
    match u {
        Used::Unused => Used::Once(l),
        Used::Once(m) | Used::Often(m) if l == m => Used::Often(m),
        Used::Once(_) | Used::Often(_) | Used::Mixed => Used::Mixed,
    }
}

// Node n is used once more, on l, from now on.
pub(crate) fn use_too(used: &mut [Used], n: NodeNo, l: Literal)
    requires { n.0 < length used.old }
    ensures { (m : ℕ) → use_at used.new m ≡ used_as m n.0 (literal_in l) (use_at used.old m) }
{
    let i = n.index();
    used[i] = used_too(l, used[i]);
}
