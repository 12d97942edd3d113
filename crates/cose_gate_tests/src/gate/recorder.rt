//! A recorder that gets no memory, at each allocation in turn (`scripts/fail-alloc.sh`).
use cose_gate::{About, Header, Judge, MessageKind, ProtectedHeader, Recorder};

#[test]
fn refused_memory_leaves_a_recorders_question(rt: HostRuntime) {
    let alloc = rt.alloc();
    let protected = ProtectedHeader::new(alloc);
    let unprotected = Header::new(alloc);
    let about = About::alone(MessageKind::Mac0, &protected, &unprotected);
    let mut recorder = Recorder::new(alloc, None);
    for _ in 0..8 {
        let before = recorder.asked().len();
        if recorder.begin(&about).is_err() {
            assert_eq!(rt; recorder.asked().len(), before);
            continue;
        }
        let one = recorder.feed(b"one").is_ok();
        let two = recorder.feed(b"twotwotwotwotwotwo").is_ok();
        assert!(rt; recorder.decide(&[7]));
        let want: &[u8] = match (one, two) {
            (true, true) => b"onetwotwotwotwotwotwo",
            (true, false) => b"one",
            (false, true) => b"twotwotwotwotwotwo",
            (false, false) => b"",
        };
        let asked = recorder.asked().last().expect(&rt, "the question");
        assert_eq!(rt; asked.structure.as_slice(), want);
        assert_eq!(rt; (asked.kind, asked.tag_len), (MessageKind::Mac0, 1));
    }
}

// A `begin` over a held question can't be refused: the question has its memory, so the next `begin`
// takes none. It forgets what was fed.
#[test]
fn refused_memory_leaves_a_held_question_its_room(rt: HostRuntime) {
    let alloc = rt.alloc();
    let protected = ProtectedHeader::new(alloc);
    let unprotected = Header::new(alloc);
    let about = About::alone(MessageKind::Mac0, &protected, &unprotected);
    let mut recorder = Recorder::new(alloc, None);
    if recorder.begin(&about).is_err() {
        return;
    }
    let _ = recorder.feed(b"gone");
    assert!(rt; recorder.begin(&about).is_ok());
    assert!(rt; recorder.decide(&[7]));
    let asked = recorder.asked().last().expect(&rt, "the question");
    assert!(rt; asked.structure.is_empty());
}
