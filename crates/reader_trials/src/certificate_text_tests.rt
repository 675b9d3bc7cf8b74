use certificate_text::{read_certificate, write_certificate};
use std::test::Fail;

#[test]
fn a_text_is_read_and_written_again(rt: HostRuntime) -> Result<(), Fail> {
    let texts: [&[u8]; 3] = [
        b"rulebook certificate 1\nlabels 0\nlinks\nfinals\ngoals\nend\n",
        b"rulebook certificate 1\nlabels 1\nlinks\n\nfinals 0\ngoals 0\nend\n",
        b"rulebook certificate 1\nlabels 3\n0 0\n0 10\nlinks\n1 2\n\n999999999\nfinals 1 2\ngoals 0 1\nend\n",
    ];
    for text in texts {
        let cert = read_certificate(rt.alloc(), text)?;
        let written = write_certificate(rt.alloc(), &cert)?;
        assert_eq!(rt; written.as_slice(), text);
    }
    Ok(())
}
