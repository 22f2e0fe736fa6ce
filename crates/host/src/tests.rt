use crate::bytes::ByteHost;
use crate::tiles::TileHost;
use crate::{Host, LAST_CHARACTER};

// Whether the host reads these characters and then ends.
fn reads<H: Host + Drop>(mut host: H, expected: &[u8]) -> bool {
    expected
        .iter()
        .all(|byte| host.take() == Some(u32::from(*byte)))
        && host.take().is_none()
}

fn tile_reads(heights: &[i16], width: usize, expected: &[u8]) -> bool {
    reads(TileHost::new(heights, width, &mut [0; 1]), expected)
}

fn bytes_read(text: &[u8]) -> bool {
    reads(ByteHost::new(text, &mut [0; 1]), text)
}

#[test]
fn bytes(rt: HostRuntime) {
    assert!(rt; bytes_read(b""));
    assert!(rt; bytes_read(b"ab\n"));
    assert!(rt; bytes_read(b"ab\nc"));
}

#[test]
fn tiles(rt: HostRuntime) {
    let heights = [0, 7, -10, 325, 32767];
    assert!(rt; tile_reads(&heights, 2, b"0,7\n-10,325\n32767"));
    assert!(rt; tile_reads(&heights, 0, b"0,7,-10,325,32767"));
    assert!(rt; tile_reads(&heights, 9, b"0,7,-10,325,32767"));
    assert!(rt; tile_reads(&[-32768], 1, b"-32768"));
    assert!(rt; tile_reads(&[], 3, b""));
}

#[test]
fn rows(rt: HostRuntime) {
    let mut out = [0u32; 1];
    let mut host = ByteHost::new(b"ab\n", &mut out);
    assert_eq!(rt; host.row_within(2), Some(2));
    assert_eq!(rt; host.row_within(1), None);
    assert_eq!(rt; host.ahead(2), Some(10));
    host.take();
    host.take();
    assert_eq!(rt; host.row_within(0), Some(0));
    host.take();
    assert_eq!(rt; host.row_within(0), Some(0));
    assert_eq!(rt; host.ahead(0), None);
}

#[test]
fn tile_rows(rt: HostRuntime) {
    let mut out = [0u32; 1];
    let mut host = TileHost::new(&[5, -12, 40], 2, &mut out);
    assert_eq!(rt; host.row_within(5), Some(5));
    assert_eq!(rt; host.row_within(4), None);
    assert_eq!(rt; host.ahead(5), Some(10));
    for _ in 0..6 {
        host.take();
    }
    assert_eq!(rt; host.row_within(2), Some(2));
    assert_eq!(rt; host.row_within(1), None);
    assert_eq!(rt; host.ahead(1), Some(48));
}

#[test]
fn writes(rt: HostRuntime) {
    let mut out = [0u32; 1];
    let mut host = TileHost::new(&[1], 1, &mut out);
    assert!(rt; !host.put(LAST_CHARACTER + 1));
    assert_eq!(rt; host.free(), 1);
    assert!(rt; host.put(LAST_CHARACTER));
    assert!(rt; !host.put(65));
    assert_eq!(rt; host.free(), 0);
    assert!(rt; host.output() == [LAST_CHARACTER].as_slice());
    let mut closed = ByteHost::new(b"", &mut []);
    assert!(rt; !closed.put(65));
}
