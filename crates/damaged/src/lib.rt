// Damaged schedule files, and the refusal that each must get. The files differ from a whole one in one way, and those
// under `orders` in two.
#![tactic(auto)]

#[cfg(test)]
mod tests {
    use layout::{file_length, write};
    use refusal::Refusal;
    use schedule::{Schedule, read_bytes};
    use std::alloc::Global;
    use std::process::Abort;
    use std::test::Fail;

    // one port of delay 1, one cell that enters in slot 9
    const SMALLEST: [u8; 28] = [
        1, 0, 0, 1, 0, 1, 0, 1, 0, 1, 0, 9, 0, 0, 0, 1, 0, 0, 0, 0, 0, 0, 0, 0, 0, 0, 0, 0,
    ];

    // The number and the place of a refusal, if there was one.
    // Other tests have this line too: a crate for it would be longer.
    fn refusal<T: Drop>(answer: Result<T, Refusal>) -> Option<(u8, usize)> {
        answer
            .err()
            .map(|refusal| (refusal.number(), refusal.place()))
    }

    // Asserts that a file is refused by this number, at this place.
    fn refused(rt: &impl Abort, heap: Global, what: &str, bytes: &[u8], number: u8, place: usize) {
        let found = refusal(Schedule::read(heap, bytes));
        assert_eq!(rt; found, Some((number, place)), "{}", what);
    }

    #[test]
    fn lengths(rt: HostRuntime) -> Result<(), Fail> {
        let heap = rt.alloc();
        refused(&rt, heap, "no bytes", b"", 1, 0);
        refused(
            &rt,
            heap,
            "seven bytes",
            b"\x01\x00\x00\x01\x00\x01\x00",
            1,
            7,
        );
        refused(
            &rt,
            heap,
            "the last byte is missing",
            b"\x01\x00\x00\x01\x00\x01\x00\x01\x00\x01\x00\x09\x00\x00\x00\x01\x00\x00\x00\x00\x00\x00\x00\x00\x00\x00\x00",
            1,
            27,
        );
        refused(
            &rt,
            heap,
            "one byte too many",
            b"\x01\x00\x00\x01\x00\x01\x00\x01\x00\x01\x00\x09\x00\x00\x00\x01\x00\x00\x00\x00\x00\x00\x00\x00\x00\x00\x00\x00\x00",
            1,
            29,
        );
        Ok(())
    }

    #[test]
    fn fields_that_must_be_known_or_zero(rt: HostRuntime) -> Result<(), Fail> {
        let heap = rt.alloc();
        refused(
            &rt,
            heap,
            "kind 0",
            b"\x00\x00\x00\x01\x00\x01\x00\x01\x00\x01\x00\x09\x00\x00\x00\x01\x00\x00\x00\x00\x00\x00\x00\x00\x00\x00\x00\x00",
            2,
            0,
        );
        refused(
            &rt,
            heap,
            "kind 4",
            b"\x04\x00\x00\x01\x00\x01\x00\x01\x00\x01\x00\x09\x00\x00\x00\x01\x00\x00\x00\x00\x00\x00\x00\x00\x00\x00\x00\x00",
            2,
            0,
        );
        refused(
            &rt,
            heap,
            "pile 3",
            b"\x01\x03\x00\x01\x00\x01\x00\x01\x00\x01\x00\x09\x00\x00\x00\x01\x00\x00\x00\x00\x00\x00\x00\x00\x00\x00\x00\x00",
            2,
            1,
        );
        refused(
            &rt,
            heap,
            "a cell's zero",
            b"\x01\x00\x00\x01\x00\x01\x00\x01\x00\x01\x00\x09\x00\x01\x00\x01\x00\x00\x00\x00\x00\x00\x00\x00\x00\x00\x00\x00",
            2,
            13,
        );
        refused(
            &rt,
            heap,
            "a slack in a load",
            b"\x01\x00\x00\x01\x00\x01\x00\x01\x00\x01\x00\x09\x00\x00\x00\x01\x00\x00\x00\x01\x00\x00\x00\x00\x00\x00\x00\x00",
            2,
            16,
        );
        refused(
            &rt,
            heap,
            "a hop's zero",
            b"\x01\x00\x00\x01\x00\x01\x00\x01\x00\x01\x00\x09\x00\x00\x00\x01\x00\x00\x00\x00\x00\x00\x00\xff\x00\x00\x00\x00",
            2,
            23,
        );
        refused(
            &rt,
            heap,
            "a sent slot in a load",
            b"\x01\x00\x00\x01\x00\x01\x00\x01\x00\x01\x00\x09\x00\x00\x00\x01\x00\x00\x00\x00\x00\x00\x00\x00\x80\x00\x00\x00",
            2,
            24,
        );
        Ok(())
    }

    #[test]
    fn counts(rt: HostRuntime) -> Result<(), Fail> {
        let heap = rt.alloc();
        refused(
            &rt,
            heap,
            "no port",
            b"\x01\x00\x00\x00\x00\x01\x00\x01\x00\x01\x00\x09\x00\x00\x00\x01\x00\x00\x00\x00\x00\x00\x00\x00\x00\x00\x00\x00",
            3,
            2,
        );
        refused(
            &rt,
            heap,
            "33 ports",
            b"\x01\x00\x00\x21\x00\x01\x00\x01\x00\x01\x00\x09\x00\x00\x00\x01\x00\x00\x00\x00\x00\x00\x00\x00\x00\x00\x00\x00",
            3,
            2,
        );
        refused(
            &rt,
            heap,
            "no cell",
            b"\x01\x00\x00\x01\x00\x00\x00\x01\x00\x01\x00\x09\x00\x00\x00\x01\x00\x00\x00\x00\x00\x00\x00\x00\x00\x00\x00\x00",
            3,
            4,
        );
        refused(
            &rt,
            heap,
            "257 cells",
            b"\x01\x00\x00\x01\x01\x01\x00\x01\x00\x01\x00\x09\x00\x00\x00\x01\x00\x00\x00\x00\x00\x00\x00\x00\x00\x00\x00\x00",
            3,
            4,
        );
        refused(
            &rt,
            heap,
            "2,049 hops",
            b"\x01\x00\x00\x01\x00\x01\x08\x01\x00\x01\x00\x09\x00\x00\x00\x01\x00\x00\x00\x00\x00\x00\x00\x00\x00\x00\x00\x00",
            3,
            6,
        );
        Ok(())
    }

    #[test]
    fn delays_and_flows(rt: HostRuntime) -> Result<(), Fail> {
        let heap = rt.alloc();
        refused(
            &rt,
            heap,
            "delay 0",
            b"\x01\x00\x00\x01\x00\x01\x00\x01\x00\x00\x00\x09\x00\x00\x00\x01\x00\x00\x00\x00\x00\x00\x00\x00\x00\x00\x00\x00",
            4,
            8,
        );
        refused(
            &rt,
            heap,
            "delay 256",
            b"\x01\x00\x00\x01\x00\x01\x00\x01\x01\x00\x00\x09\x00\x00\x00\x01\x00\x00\x00\x00\x00\x00\x00\x00\x00\x00\x00\x00",
            4,
            8,
        );
        refused(
            &rt,
            heap,
            "flow 8",
            b"\x01\x00\x00\x01\x00\x01\x00\x01\x00\x01\x00\x09\x08\x00\x00\x01\x00\x00\x00\x00\x00\x00\x00\x00\x00\x00\x00\x00",
            10,
            0,
        );
        Ok(())
    }

    #[test]
    fn indices(rt: HostRuntime) -> Result<(), Fail> {
        let heap = rt.alloc();
        refused(
            &rt,
            heap,
            "a first index above the hop count",
            b"\x01\x00\x00\x01\x00\x01\x00\x01\x00\x01\x00\x09\x00\x00\x00\x02\x00\x00\x00\x00\x00\x00\x00\x00\x00\x00\x00\x00",
            5,
            14,
        );
        refused(
            &rt,
            heap,
            "a next index that is its own",
            b"\x01\x00\x00\x01\x00\x01\x00\x01\x00\x01\x00\x09\x00\x00\x00\x01\x00\x00\x00\x00\x00\x01\x00\x00\x00\x00\x00\x00",
            5,
            20,
        );
        refused(
            &rt,
            heap,
            "a next index above the hop count",
            b"\x01\x00\x00\x01\x00\x01\x00\x01\x00\x01\x00\x09\x00\x00\x00\x01\x00\x00\x00\x00\x00\x02\x00\x00\x00\x00\x00\x00",
            5,
            20,
        );
        Ok(())
    }

    #[test]
    fn chains(rt: HostRuntime) -> Result<(), Fail> {
        let heap = rt.alloc();
        refused(
            &rt,
            heap,
            "two cells share a record",
            b"\x01\x00\x00\x01\x00\x02\x00\x01\x00\x01\x00\x00\x00\x00\x00\x01\x00\x00\x00\x00\x00\x00\x00\x00\x00\x01\x00\x00\x00\x00\x00\x00\x00\x00\x00\x00\x00\x00",
            6,
            1,
        );
        refused(
            &rt,
            heap,
            "a chain joins an earlier one",
            b"\x01\x00\x00\x02\x00\x02\x00\x03\x00\x01\x00\x01\x00\x00\x00\x00\x00\x01\x00\x00\x00\x00\x00\x00\x00\x00\x00\x02\x00\x00\x00\x00\x00\x03\x00\x00\x00\x00\x00\x00\x00\x03\x01\x00\x00\x00\x00\x00\x00\x00\x01\x00\x00\x00\x00\x00",
            6,
            3,
        );
        refused(
            &rt,
            heap,
            "a record on no chain",
            b"\x01\x00\x00\x01\x00\x01\x00\x02\x00\x01\x00\x00\x00\x00\x00\x01\x00\x00\x00\x00\x00\x00\x00\x00\x00\x00\x00\x00\x00\x00\x00\x00\x00\x00\x00\x00",
            6,
            2,
        );
        Ok(())
    }

    #[test]
    fn routes(rt: HostRuntime) -> Result<(), Fail> {
        let heap = rt.alloc();
        refused(
            &rt,
            heap,
            "an empty route",
            b"\x01\x00\x00\x01\x00\x01\x00\x01\x00\x01\x00\x09\x00\x00\x00\x00\x00\x00\x00\x00\x00\x00\x00\x00\x00\x00\x00\x00",
            7,
            0,
        );
        refused(
            &rt,
            heap,
            "nine ports",
            b"\x01\x00\x00\x09\x00\x01\x00\x09\x00\x01\x00\x01\x00\x01\x00\x01\x00\x01\x00\x01\x00\x01\x00\x01\x00\x01\x00\x00\x00\x00\x00\x01\x00\x00\x00\x00\x00\x02\x00\x00\x00\x00\x00\x00\x00\x03\x01\x00\x00\x00\x00\x00\x00\x04\x02\x00\x00\x00\x00\x00\x00\x05\x03\x00\x00\x00\x00\x00\x00\x06\x04\x00\x00\x00\x00\x00\x00\x07\x05\x00\x00\x00\x00\x00\x00\x08\x06\x00\x00\x00\x00\x00\x00\x09\x07\x00\x00\x00\x00\x00\x00\x00\x08\x00\x00\x00\x00\x00",
            7,
            0,
        );
        refused(
            &rt,
            heap,
            "an unknown port",
            b"\x01\x00\x00\x01\x00\x01\x00\x01\x00\x01\x00\x09\x00\x00\x00\x01\x00\x00\x00\x00\x00\x00\x01\x00\x00\x00\x00\x00",
            8,
            0,
        );
        refused(
            &rt,
            heap,
            "a port twice",
            b"\x01\x00\x00\x02\x00\x01\x00\x03\x00\x01\x00\x01\x00\x00\x00\x00\x00\x01\x00\x00\x00\x00\x00\x02\x00\x00\x00\x00\x00\x00\x00\x03\x01\x00\x00\x00\x00\x00\x00\x00\x00\x00\x00\x00\x00\x00",
            9,
            0,
        );
        Ok(())
    }

    #[test]
    fn orders(rt: HostRuntime) -> Result<(), Fail> {
        let heap = rt.alloc();
        refused(
            &rt,
            heap,
            "too short and of no kind",
            b"\x09\x00\x00\x01\x00\x01\x00",
            1,
            7,
        );
        refused(
            &rt,
            heap,
            "kind before pile",
            b"\x09\x09\x00\x01\x00\x01\x00\x01\x00\x01\x00\x09\x00\x00\x00\x01\x00\x00\x00\x00\x00\x00\x00\x00\x00\x00\x00\x00",
            2,
            0,
        );
        refused(
            &rt,
            heap,
            "pile before counts",
            b"\x01\x09\x00\x00\x00\x01\x00\x01\x00\x01\x00\x09\x00\x00\x00\x01\x00\x00\x00\x00\x00\x00\x00\x00\x00\x00\x00\x00",
            2,
            1,
        );
        refused(
            &rt,
            heap,
            "counts before the whole length",
            b"\x01\x00\x00\x01\x00\x00\x00\x01\x00\x01\x00\x09\x00\x00\x00\x01\x00\x00\x00\x00",
            3,
            4,
        );
        refused(
            &rt,
            heap,
            "the whole length before delays",
            b"\x01\x00\x00\x01\x00\x01\x00\x01\x00\x00\x00\x09\x00\x00\x00\x01\x00\x00\x00\x00\x00\x00\x00\x00\x00\x00\x00",
            1,
            27,
        );
        refused(
            &rt,
            heap,
            "ports before cells",
            b"\x01\x00\x00\x01\x00\x01\x00\x01\x00\x00\x00\x09\x08\x00\x00\x01\x00\x00\x00\x00\x00\x00\x00\x00\x00\x00\x00\x00",
            4,
            8,
        );
        refused(
            &rt,
            heap,
            "flow before the zero byte",
            b"\x01\x00\x00\x01\x00\x01\x00\x01\x00\x01\x00\x09\x08\x01\x00\x01\x00\x00\x00\x00\x00\x00\x00\x00\x00\x00\x00\x00",
            10,
            0,
        );
        refused(
            &rt,
            heap,
            "the zero byte before the first index",
            b"\x01\x00\x00\x01\x00\x01\x00\x01\x00\x01\x00\x09\x00\x01\x00\x02\x00\x00\x00\x00\x00\x00\x00\x00\x00\x00\x00\x00",
            2,
            13,
        );
        refused(
            &rt,
            heap,
            "the first index before the slack",
            b"\x01\x00\x00\x01\x00\x01\x00\x01\x00\x01\x00\x09\x00\x00\x00\x02\x00\x00\x00\x01\x00\x00\x00\x00\x00\x00\x00\x00",
            5,
            14,
        );
        refused(
            &rt,
            heap,
            "cells before hops",
            b"\x01\x00\x00\x01\x00\x01\x00\x01\x00\x01\x00\x09\x00\x00\x00\x01\x00\x00\x00\x01\x00\x01\x00\x00\x00\x00\x00\x00",
            2,
            16,
        );
        refused(
            &rt,
            heap,
            "the next index before the zero byte",
            b"\x01\x00\x00\x01\x00\x01\x00\x01\x00\x01\x00\x09\x00\x00\x00\x01\x00\x00\x00\x00\x00\x01\x00\x01\x00\x00\x00\x00",
            5,
            20,
        );
        refused(
            &rt,
            heap,
            "fields before chains",
            b"\x01\x00\x00\x01\x00\x02\x00\x01\x00\x01\x00\x00\x00\x00\x00\x01\x00\x00\x00\x00\x00\x00\x00\x00\x00\x01\x00\x00\x00\x00\x00\x00\x00\x00\x00\x00\x00\x01",
            2,
            34,
        );
        refused(
            &rt,
            heap,
            "the walk before the route",
            b"\x01\x00\x00\x09\x00\x02\x00\x0a\x00\x01\x00\x01\x00\x01\x00\x01\x00\x01\x00\x01\x00\x01\x00\x01\x00\x01\x00\x00\x00\x00\x00\x0a\x00\x00\x00\x00\x00\x00\x00\x00\x00\x01\x00\x00\x00\x00\x00\x02\x00\x00\x00\x00\x00\x00\x00\x03\x01\x00\x00\x00\x00\x00\x00\x04\x02\x00\x00\x00\x00\x00\x00\x05\x03\x00\x00\x00\x00\x00\x00\x06\x04\x00\x00\x00\x00\x00\x00\x07\x05\x00\x00\x00\x00\x00\x00\x08\x06\x00\x00\x00\x00\x00\x00\x09\x07\x00\x00\x00\x00\x00\x00\x0a\x08\x00\x00\x00\x00\x00\x00\x00\x00\x00\x00\x00\x00\x00",
            6,
            10,
        );
        refused(
            &rt,
            heap,
            "an earlier route before a later walk",
            b"\x01\x00\x00\x01\x00\x02\x00\x01\x00\x01\x00\x00\x00\x00\x00\x01\x00\x00\x00\x00\x00\x00\x00\x00\x00\x01\x00\x00\x00\x00\x00\x00\x07\x00\x00\x00\x00\x00",
            8,
            0,
        );
        refused(
            &rt,
            heap,
            "a length of the route before its ports",
            b"\x01\x00\x00\x09\x00\x01\x00\x09\x00\x01\x00\x01\x00\x01\x00\x01\x00\x01\x00\x01\x00\x01\x00\x01\x00\x01\x00\x00\x00\x00\x00\x01\x00\x00\x00\x00\x00\x02\x63\x00\x00\x00\x00\x00\x00\x03\x01\x00\x00\x00\x00\x00\x00\x04\x02\x00\x00\x00\x00\x00\x00\x05\x03\x00\x00\x00\x00\x00\x00\x06\x04\x00\x00\x00\x00\x00\x00\x07\x05\x00\x00\x00\x00\x00\x00\x08\x06\x00\x00\x00\x00\x00\x00\x09\x07\x00\x00\x00\x00\x00\x00\x00\x08\x00\x00\x00\x00\x00",
            7,
            0,
        );
        refused(
            &rt,
            heap,
            "an unknown port before one twice",
            b"\x01\x00\x00\x01\x00\x01\x00\x03\x00\x01\x00\x00\x00\x00\x00\x01\x00\x00\x00\x00\x00\x02\x00\x00\x00\x00\x00\x00\x00\x03\x00\x00\x00\x00\x00\x00\x00\x00\x05\x00\x00\x00\x00\x00",
            8,
            0,
        );
        refused(
            &rt,
            heap,
            "routes before records on no chain",
            b"\x01\x00\x00\x01\x00\x01\x00\x02\x00\x01\x00\x00\x00\x00\x00\x01\x00\x00\x00\x00\x00\x00\x03\x00\x00\x00\x00\x00\x00\x00\x00\x00\x00\x00\x00\x00",
            8,
            0,
        );
        Ok(())
    }

    // Reads a file and writes it again.
    fn rewritten(heap: Global, bytes: &[u8]) -> Result<Vec<u8>, Fail> {
        let schedule = Schedule::read(heap, bytes)?;
        let mut out = vec![in heap; 0u8; file_length(&schedule)]?;
        write(&schedule, &mut out)?;
        Ok(out)
    }

    #[test]
    fn smallest_is_written_as_it_was_read(rt: HostRuntime) -> Result<(), Fail> {
        let out = rewritten(rt.alloc(), &SMALLEST)?;
        assert_eq!(rt; out.as_slice(), SMALLEST.as_slice());
        Ok(())
    }

    #[test]
    fn other_kinds_are_no_loads(rt: HostRuntime) -> Result<(), Fail> {
        let mut bytes = SMALLEST;
        bytes[0] = 2;
        assert!(rt; Schedule::read(rt.alloc(), &bytes).is_ok());
        assert_eq!(rt;
            refusal(Schedule::read_load(rt.alloc(), &bytes)),
            Some((2, 0))
        );
        Ok(())
    }

    #[test]
    fn a_short_output_stays(rt: HostRuntime) -> Result<(), Fail> {
        let schedule = Schedule::read(rt.alloc(), &SMALLEST)?;
        let mut out = [7u8; 27];
        assert_eq!(rt; refusal(write(&schedule, &mut out)), Some((22, 0)));
        assert_eq!(rt; out, [7u8; 27]);
        Ok(())
    }

    #[test]
    fn bytes_are_read_up_to_one_past_the_longest_file(rt: HostRuntime) -> Result<(), Fail> {
        let whole = read_bytes(rt.alloc(), SMALLEST.as_slice())?;
        assert_eq!(rt; whole.as_slice(), SMALLEST.as_slice());
        let long = vec![in rt.alloc(); 7u8; 20_000]?;
        let front = read_bytes(rt.alloc(), long.as_slice())?;
        let most = vec![in rt.alloc(); 7u8; 19_017]?;
        assert_eq!(rt; front.as_slice(), most.as_slice());
        Ok(())
    }
}
