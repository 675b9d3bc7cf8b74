use maneuver_lattice::read_lattice;
use std::test::Fail;

// Two maneuvers from one class to itself.
const TWO: &[u8] =
    b"horizon = 1\nlength = 45000\nwidth = 18000\ntolerance = 0\n[[class]]\nname = \"c\"\nheading = 0\nspeed = 10000\n[[maneuver]]\nname = \"p\"\nfrom = \"c\"\nto = \"c\"\nsteps = [[10000, 0, 0, 10000, 0, 0]]\n[[maneuver]]\nname = \"q\"\nfrom = \"c\"\nto = \"c\"\nsteps = [[10000, 0, 0, 10000, 0, 0]]\n";

// What is refused, and why, is told by the rows of `walk`.
#[test]
fn a_lattice_is_read(rt: HostRuntime) -> Result<(), Fail> {
    let alloc = rt.alloc();
    let Ok(lattice) = read_lattice(alloc, TWO) else {
        return Err(Fail::new("refused"));
    };
    assert_eq!(rt; lattice.horizon, 1);
    assert_eq!(rt; lattice.width, 18_000);
    assert_eq!(rt; lattice.classes.as_slice().len(), 1);
    let names = lattice.names(alloc)?;
    assert_eq!(rt; names.as_slice().len(), 2);
    for name in names.as_slice() {
        assert_eq!(rt; name.as_slice().len(), 1);
    }
    Ok(())
}
