// Unit texts with known outcomes.
#![tactic(auto)]

ghost use Rattle.unit_texts.specs.Valves.{valve_first};

use units::names::FirstVariables;

// Where the blocks of `fun open 1; fun shut 1; var v; var h; var x;` begin.
#[derive(Drop)]
pub struct Valves;

impl FirstVariables for Valves {
    ghost first = { λ _. valve_first };

    fn first_of(&self, name: &[u8]) -> u8 {
        if name == b"open".as_slice() {
            0
        } else if name == b"shut".as_slice() {
            3
        } else if name == b"v".as_slice() {
            6
        } else if name == b"h".as_slice() {
            7
        } else if name == b"x".as_slice() {
            8
        } else {
            9
        }
    }
}

#[cfg(test)]
mod tests {
    use crate::Valves;
    use grammar::item::{Arguments, Call, Callee, Item, Place, Slot};
    use grammar::reader::check_grammar;
    use lexemes::lexeme::Span;
    use units::calls::{call_pointer, count_calls};
    use units::listing::{ListedWord, count_words, list_words};
    use units::words::{word_at, word_count};

    const VALVES: &[u8] =
        b"fun open 1; fun shut 1; var v; var h; var x;\nh = &open; h = &shut;\nx = (*h)(v);";

    // The offset of the grammar's fault.
    fn fault(text: &[u8]) -> Option<usize> {
        check_grammar(text).err().map(|location| location.offset)
    }

    #[test]
    fn admitted(rt: HostRuntime) {
        assert_eq!(rt; fault(b""), None);
        assert_eq!(rt; fault(&[b' '; 4096]), None);
        assert_eq!(rt; fault(VALVES), None);
        assert_eq!(rt; fault(b"var p;\r\n\tp=q;"), None);
        assert_eq!(rt; fault(b"fun f 6;"), None);
        assert_eq!(rt; fault(b"var abcdefghijklmnopqrstuvwx;"), None);
        assert_eq!(rt; fault(b"p.r = q.1; _ = &p_9;"), None);
        assert_eq!(rt; fault(b"f(a,b,c,d,e,g);"), None);
        assert_eq!(rt; fault(b"(*p.r)();*p=q;p=*q;p=f();"), None);
    }

    #[test]
    fn refused(rt: HostRuntime) {
        assert_eq!(rt; fault(b"var p"), Some(5));
        assert_eq!(rt; fault(b"var p;;"), Some(6));
        assert_eq!(rt; fault(b"fun f 66;"), Some(6));
        assert_eq!(rt; fault(b"fun f 7;"), Some(6));
        assert_eq!(rt; fault(b"fun f 6a;"), Some(7));
        assert_eq!(rt; fault(b"var abcdefghijklmnopqrstuvwxy;"), Some(4));
        assert_eq!(rt; fault(b"var ab cd;"), Some(7));
        assert_eq!(rt; fault(b"var var;"), Some(4));
        assert_eq!(rt; fault(b"\0"), Some(0));
        assert_eq!(rt; fault(b" \xff"), Some(1));
        assert_eq!(rt; fault(b"p.s = q;"), Some(2));
        assert_eq!(rt; fault(b"p.1(a);"), Some(3));
        assert_eq!(rt; fault(b"f(a,b,c,d,e,g,h);"), Some(13));
    }

    #[test]
    fn lines(rt: HostRuntime) {
        let fault = check_grammar(b"var p;\r\nvar q;\nvar ;").err();
        assert_eq!(rt; fault.map(|location| location.line), Some(3));
    }

    #[test]
    fn words(rt: HostRuntime) {
        let none = ListedWord {
            word: 9,
            unit: 9,
            at: 9,
        };
        let mut out = [none; 6];
        assert_eq!(rt; list_words(VALVES, 2, &Valves, &mut out, 1), 4);
        assert_eq!(rt; out[0].word, 9);
        assert_eq!(rt; out[1].word, 0x0000_7000);
        assert_eq!(rt; out[2].word, 0x0000_7003);
        assert_eq!(rt; out[3].word, 0xd000_7006);
        assert_eq!(rt; out[4].word, 0x8800_8007);
        assert_eq!(rt; out[4].at, 67);
        assert_eq!(rt; out[5].word, 9);
    }

    // A call that no text gives: its count is past its six places.
    #[test]
    fn words_of_a_literal(rt: HostRuntime) {
        let name = Span { from: 0, to: 1 };
        let place = Place {
            base: name,
            slot: Slot::Bare,
        };
        let arguments = Arguments {
            places: [place; 6],
            count: 9,
        };
        let call = Call {
            callee: Callee::Direct(name),
            arguments,
        };
        let item = Item::Invoke(call);
        assert_eq!(rt; arguments.len(), 6);
        assert_eq!(rt; word_count(item), 6);
        assert_eq!(rt; word_at(b"v", &Valves, item, 0), Some(0x4000_8006));
        assert_eq!(rt; word_at(b"v", &Valves, item, 5), Some(0x4000_d006));
        assert_eq!(rt; word_at(b"v", &Valves, item, 6), None);
    }

    #[test]
    fn counts(rt: HostRuntime) {
        assert_eq!(rt; count_words(VALVES), 4);
        assert_eq!(rt; count_words(b"(*p)(a, b); f(a); x = f();"), 4);
        assert_eq!(rt; count_words(b"x = y; oops"), 0);
        assert_eq!(rt; count_calls(b"(*p)(a, b); f(a); x = (*q.r)();"), 2);
        let second = call_pointer(b"(*p)(a, b); f(a); x = (*q.r)();", 1);
        assert_eq!(rt; second.map(|place| place.base.from), Some(24));
        assert_eq!(rt; call_pointer(VALVES, 1).is_some(), false);
    }
}
