// Each refusal, at the last argument that is accepted and the first that is not.
use crate::{Analyser, Refusal};

// What a refusal tells: its number, and the offset and line of a fault in the text.
fn told(reply: Result<(), Refusal>) -> Result<(), (u32, Option<(usize, usize)>)> {
    reply.map_err(|refusal| {
        let location = match refusal {
            Refusal::Text(fault) => fault.location(),
            _ => None,
        };
        (refusal.number(), location.map(|l| (l.offset, l.line)))
    })
}

#[test]
fn a_unit_number_is_at_most_7(rt: HostRuntime) {
    let mut analyser = Analyser::new();
    assert_eq!(rt; told(analyser.load(8, b"var p;")), Err((9, None)));
    assert_eq!(rt; told(analyser.unload(8)), Err((9, None)));
    assert_eq!(rt; told(analyser.load(7, b"var p;")), Ok(()));
}

#[test]
fn a_unit_that_stands_is_not_loaded_again(rt: HostRuntime) {
    let mut analyser = Analyser::new();
    assert_eq!(rt; told(analyser.load(3, b"var p;")), Ok(()));
    assert_eq!(rt; told(analyser.load(3, b"var q")), Err((10, None)));
    assert_eq!(rt; told(analyser.unload(3)), Ok(()));
    assert_eq!(rt; told(analyser.load(3, b"var q;")), Ok(()));
}

#[test]
fn a_text_has_at_most_4096_bytes(rt: HostRuntime) {
    let blanks = [32u8; 4097];
    let mut analyser = Analyser::new();
    assert_eq!(rt; told(analyser.load(0, &blanks)), Err((11, None)));
    assert_eq!(rt; told(analyser.load(0, &blanks[0..4096])), Ok(()));
    assert_eq!(rt; told(analyser.load(0, &blanks)), Err((10, None)));
}

#[test]
fn a_text_keeps_to_grammar_and_declarations(rt: HostRuntime) {
    let mut analyser = Analyser::new();
    assert_eq!(rt; told(analyser.load(0, b"var p")), Err((12, Some((5, 1)))));
    assert_eq!(rt; told(analyser.load(0, b"var p;;")), Err((12, Some((6, 1)))));
    assert_eq!(rt; told(analyser.load(0, b"p=q;")), Err((13, Some((0, 1)))));
    assert_eq!(rt;
        told(analyser.load(0, b"var p;\np = &q;")),
        Err((13, Some((12, 2))))
    );
    assert_eq!(rt; told(analyser.load(0, b"var p; var q;\np = &q;")), Ok(()));
}

#[test]
fn nothing_to_unload(rt: HostRuntime) {
    let mut analyser = Analyser::new();
    assert_eq!(rt; told(analyser.unload(0)), Err((18, None)));
    assert_eq!(rt; told(analyser.load(0, b"")), Ok(()));
    assert_eq!(rt; told(analyser.unload(0)), Ok(()));
    assert_eq!(rt; told(analyser.unload(0)), Err((18, None)));
}
