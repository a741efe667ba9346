// Tables of names with known outcomes.
#![tactic(auto)]

#[cfg(test)]
mod tests {
    use names::{NOWHERE, NameTable};

    // A call on the table, for a name of one byte.
    #[derive(Clone, Copy)]
    enum Step {
        Mention(u8, u8),
        Forget(u8),
        Sweep,
    }

    // How many steps were refused.
    fn run(table: &mut NameTable, steps: &[Step]) -> usize {
        let mut refused: usize = 0;
        for step in steps {
            match *step {
                Step::Mention(name, slots) => {
                    if table.mention(&[name], slots, true).is_err() {
                        refused = refused.saturating_add(1);
                    }
                }
                Step::Forget(name) => table.forget(&[name], true),
                Step::Sweep => table.sweep(),
            }
        }
        refused
    }

    // How many units mention the name, if it is known.
    fn units(table: &NameTable, name: &[u8]) -> Option<u8> {
        table.find(name).map(|note| note.units)
    }

    // The first variable of the name's block, if it has one, and if it is known.
    fn first(table: &NameTable, name: &[u8]) -> Option<Option<u16>> {
        table.find(name).map(|note| note.first)
    }

    #[test]
    fn counted(rt: HostRuntime) {
        let mut table = NameTable::new();
        let steps = [
            Step::Mention(112, 0),
            Step::Mention(102, 3),
            Step::Mention(112, 0),
            Step::Forget(112),
            Step::Forget(102),
            Step::Forget(113),
        ];
        assert_eq!(rt; run(&mut table, &steps), 0);
        assert_eq!(rt; units(&table, b"p"), Some(1));
        assert_eq!(rt; units(&table, b"f"), Some(0));
        assert_eq!(rt; table.variables(), 5);
    }

    #[test]
    fn swept(rt: HostRuntime) {
        let mut table = NameTable::new();
        let steps = [
            Step::Mention(112, 0),
            Step::Mention(102, 3),
            Step::Forget(112),
            Step::Sweep,
            Step::Mention(103, 252),
            Step::Mention(103, 251),
            Step::Mention(102, 3),
            Step::Mention(112, 0),
        ];
        assert_eq!(rt; run(&mut table, &steps), 2);
        assert_eq!(rt; units(&table, b"p"), None);
        assert_eq!(rt; units(&table, b"f"), Some(2));
        assert_eq!(rt; table.variables(), 256);
    }

    #[test]
    fn placed(rt: HostRuntime) {
        let mut table = NameTable::new();
        assert_eq!(rt; run(&mut table, &[Step::Mention(112, 0)]), 0);
        table.place(b"p", 7);
        table.place(b"q", 8);
        assert_eq!(rt; first(&table, b"p"), Some(Some(7)));
        table.place(b"p", 300);
        assert_eq!(rt; first(&table, b"p"), Some(Some(300)));
        table.place(b"p", NOWHERE);
        assert_eq!(rt; first(&table, b"p"), Some(None));
        table.place(b"p", 7);
        table.unplace_all();
        assert_eq!(rt; first(&table, b"p"), Some(None));
    }

    #[test]
    fn long_names(rt: HostRuntime) {
        let mut table = NameTable::new();
        assert_eq!(rt;
            table.mention(b"abcdefghijklmnopqrstuvwxy", 0, true).is_ok(),
            false
        );
        assert_eq!(rt;
            table.mention(b"abcdefghijklmnopqrstuvwx", 0, true).is_ok(),
            true
        );
        assert_eq!(rt; units(&table, b"abcdefghijklmnopqrstuvwx"), Some(1));
    }
}
