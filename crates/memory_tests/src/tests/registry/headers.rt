use crate::tests::registry::WORKED;
use registry_log::{Header, read_header};
use std::test::Fail;

const HEADERS: &[(&[u8], Header)] = &[
    (WORKED, Header::Right { generation: 1 }),
    (
        b".beat 1 18446744073709551615\n",
        Header::Right {
            generation: u64::MAX,
        },
    ),
    (b"{beat 3 ", Header::Broken { at: 6 }),
    (b"{", Header::Broken { at: 1 }),
    (b"{beat 2 01", Header::Broken { at: 10 }),
    (b"{beat 2 00000000000a0000000000", Header::Broken { at: 19 }),
    (b"{beat 2 00000000000000000000", Header::Broken { at: 8 }),
    (b"{beat 2 18446744073709551616 ", Header::Broken { at: 8 }),
    (b"{beat 2 00000000000000000001 ", Header::Broken { at: 28 }),
    (b"{beat 2 00000000000000000001", Header::Broken { at: 28 }),
];

#[test]
fn headers_are_read_by_place(rt: HostRuntime) -> Result<(), Fail> {
    for (front, header) in HEADERS {
        assert_eq!(rt; read_header(front), *header);
    }
    Ok(())
}
