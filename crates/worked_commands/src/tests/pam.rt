use fd_pam::{header, pam_len};
use std::test::Fail;

#[test]
fn header_of_the_larger_target(rt: HostRuntime) -> Result<(), Fail> {
    assert_eq!(rt; header(rt.alloc(), 16_384, 16_384)?.len(), 73);
    assert_eq!(rt; pam_len(16_384, 16_384), 1_073_741_897);
    assert_eq!(rt; header(rt.alloc(), 2048, 2048)?.len(), 71);
    assert_eq!(rt; header(rt.alloc(), 1, 1)?.len(), 65);
    assert_eq!(rt; pam_len(2048, 2048), 16_777_287);
    assert_eq!(rt; pam_len(1, 1), 69);
    Ok(())
}
