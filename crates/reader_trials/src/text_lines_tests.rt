use std::test::Fail;
use text_lines::{push_row, push_word};

#[test]
fn a_row_is_its_name_and_its_numbers(rt: HostRuntime) -> Result<(), Fail> {
    let mut out = b"first\n".to_vec(rt.alloc())?;
    push_row(
        rt.alloc(),
        &mut out,
        b"y",
        &[0, 5, 1_000_000_000_000_000_000],
    )?;
    push_word(&mut out, b"end")?;
    assert_eq!(rt;
        out.as_slice(),
        b"first\ny 0 5 1000000000000000000\n end".as_slice()
    );
    Ok(())
}
