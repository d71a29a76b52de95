// Terms: the trees that nodes stand for.

ghost use Rattle.std.specs.Prelude.{◌≡◌, ◌<◌, ◌-◌, ◌↔◌, None, IfSome, IsTrue};
ghost use Rattle.sqlite_schema.specs.Code.{op_term, term_to, terms_in};
ghost use Rattle.sqlite_sql.specs.Term.{lit};
ghost use Rattle.sqlite_value.specs.declared.value.Value.TheVariants.{Null};

use crate::same_schema::values::Same;
use sqlite_schema::code::{Op, Terms};
use sqlite_value::value::Value;

// The node at the place, if the depth allows one more; none stands for NULL.
#[tactic(auto, using(crate::proofs::TermLemmas::term_at))]
fn node_at(nodes: &[Op], depth: usize, place: usize) -> Option<&Op>
    ensures none { result ≡ None → term_to nodes.now depth place ≡ lit Null }
    ensures some { IfSome result (λ op. (0 < depth)
        × (term_to nodes.now depth place ≡ op_term (term_to nodes.now (depth - 1)) op.now)) }
{
    if depth == 0 { None } else { nodes.get(place) }
}

// Whether the node stands for NULL.
fn is_null(op: &Op) -> bool
    ensures { (below : _) → IsTrue result ↔ (op_term below op.now ≡ lit Null) }
{
    matches!(op, Op::Literal(Value::Null))
}

// Whether the terms at the places are the same, each read to its depth.
#[cycle(terms)]
fn is_same_term(
    nodes: &[Op],
    depth: usize,
    place: usize,
    others: &[Op],
    other_depth: usize,
    other_place: usize,
) -> bool
    ensures { IsTrue result ↔ (term_to nodes.now depth place
        ≡ term_to others.now other_depth other_place) }
{
    match (
        node_at(nodes, depth, place),
        node_at(others, other_depth, other_place),
    ) {
        (None, None) => true,
        (Some(op), None) | (None, Some(op)) => is_null(op),
        (Some(node), Some(other)) => {
            is_same_node(nodes, depth, node, others, other_depth, other)
        }
    }
}

// Whether the two nodes stand for the same term.
#[cycle(terms)]
fn is_same_node(
    nodes: &[Op],
    depth: usize,
    node: &Op,
    others: &[Op],
    other_depth: usize,
    other: &Op,
) -> bool
    requires { (0 < depth) × (0 < other_depth) }
    ensures { IsTrue result ↔ (op_term (term_to nodes.now (depth - 1)) node.now
        ≡ op_term (term_to others.now (other_depth - 1)) other.now) }
{
    let (below, other_below) = (depth - 1, other_depth - 1);
    match (node, other) {
        (Op::Literal(v), Op::Literal(w)) => v.is_same(w),
        (Op::Column(s, i), Op::Column(t, j)) => *s == *t && *i == *j,
        (Op::Unary(f, a), Op::Unary(g, b)) => {
            *f == *g && is_same_term(nodes, below, *a, others, other_below, *b)
        }
        (Op::Binary(f, a, c), Op::Binary(g, b, d)) => {
            *f == *g
                && is_same_term(nodes, below, *a, others, other_below, *b)
                && is_same_term(nodes, below, *c, others, other_below, *d)
        }
        (Op::Case(a, c, e), Op::Case(b, d, f)) => {
            is_same_term(nodes, below, *a, others, other_below, *b)
                && is_same_term(nodes, below, *c, others, other_below, *d)
                && is_same_term(nodes, below, *e, others, other_below, *f)
        }
        _ => false,
    }
}

// Whether the terms at these places are the same, one by one.
#[tactic(auto, using(crate::proofs::TermLemmas::same_at))]
fn are_same_terms(nodes: &[Op], places: &[usize], others: &[Op], other_places: &[usize]) -> bool
    ensures { IsTrue result ↔ (terms_in nodes.now places.now
        ≡ terms_in others.now other_places.now) }
{
    if places.len() != other_places.len() {
        return false;
    }
    for (i, place) in places.iter().enumerate() {
        if !is_same_term(
            nodes,
            nodes.len(),
            *place,
            others,
            others.len(),
            other_places[i],
        ) {
            return false;
        }
    }
    true
}

impl Same for Terms {
    fn is_same(&self, other: &Terms) -> bool {
        are_same_terms(
            self.nodes.as_slice(),
            self.roots.as_slice(),
            other.nodes.as_slice(),
            other.roots.as_slice(),
        )
    }
}
