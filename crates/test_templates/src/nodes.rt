// What no clause says: that origins are found where memory suffices, and some of them by hand.
use crate::assertions::same_at;
use crate::terms::terms_of;
use language_base::Span;
use query_templates::{Origin, Use, expanded_file, origins};
use std::alloc::Global;

type Place = (u32, u32);

// Of a node: where it is written, and the places of the use that it came of and of the name of its
// template.
type Node = (Place, Option<(Place, Place)>);

// The plain term of `def(d(P),or(P,b))s(d(d(c)),e)` is `s(or(or(c,b),b),e)`.
const OUTER: Option<(Place, Place)> = Some(((19, 26), (4, 5)));

const NESTED: &[Node] = &[
    ((17, 29), None),
    ((17, 18), None),
    ((9, 16), OUTER),
    ((9, 11), OUTER),
    ((9, 16), OUTER),
    ((9, 11), OUTER),
    ((23, 24), OUTER),
    ((14, 15), OUTER),
    ((14, 15), OUTER),
    ((27, 28), None),
];

// That of `def(v,w)def(u,eq(v,1))a(u,v,b)` is `a(eq(w,1),w,b)`.
const WORDS: &[Node] = &[
    ((22, 30), None),
    ((22, 23), None),
    ((14, 21), Some(((24, 25), (12, 13)))),
    ((14, 16), Some(((24, 25), (12, 13)))),
    ((6, 7), Some(((24, 25), (12, 13)))),
    ((19, 20), Some(((24, 25), (12, 13)))),
    ((6, 7), Some(((26, 27), (4, 5)))),
    ((28, 29), None),
];

fn span((from, to): Place) -> Span {
    Span { from, to }
}

fn is_of((place, used): Node, origin: Origin) -> bool {
    let used = match used {
        Some((place, template)) => Some(Use {
            place: span(place),
            template: span(template),
        }),
        None => None,
    };
    origin
        == Origin {
            place: span(place),
            used,
        }
}

fn origins_in(alloc: Global, text: &[u8]) -> Option<Vec<Origin>> {
    let trees = terms_of(alloc, text)?;
    match expanded_file(alloc, text, &trees) {
        Ok(plain) => origins(alloc, text, &trees, &plain).ok(),
        Err(_) => None,
    }
}

fn has_origins(alloc: Global, text: &[u8], nodes: &[Node]) -> bool {
    let Some(origins) = origins_in(alloc, text) else {
        return false;
    };
    origins.len() == nodes.len()
        && origins
            .iter()
            .zip(nodes)
            .all(|(origin, node)| is_of(*node, *origin))
}

#[test]
fn nodes_came_of_their_outermost_use(rt: HostRuntime) {
    let cases = [
        ("def(d(P),or(P,b))s(d(d(c)),e)", NESTED),
        ("def(v,w)def(u,eq(v,1))a(u,v,b)", WORDS),
        ("b", [((0, 1), None)].as_slice()),
    ];
    for (text, nodes) in cases {
        let found = has_origins(rt.alloc(), text.as_bytes(), nodes);
        same_at(&rt, text, found, true);
    }
}
