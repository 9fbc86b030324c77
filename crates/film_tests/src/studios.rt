// That calls succeed, and what the system does.
use enc_edge::{Failed, Gate, MemStudio, OpenGate, Out, RealStudio, Studio, read_full, write_full};
use std::fs;
use std::test::Fail;

fn enters<G: Gate>(gate: &G) {
    gate.enter(0);
}

#[test]
fn calls_in_memory_fail_by_the_list(rt: HostRuntime) -> Result<(), Fail> {
    let alloc = rt.alloc();
    let failing = [3, 6].to_vec(alloc)?;
    let mut studio = MemStudio::new(alloc, [1, 2, 3, 4, 5].to_vec(alloc)?, 4, 2, failing)?;
    assert_eq!(rt; studio.open_in("film"), Ok(()));
    let mut buf = [0; 8];
    assert_eq!(rt; read_full(&mut studio, &mut buf), Err(Failed));
    assert_eq!(rt; read_full(&mut studio, &mut buf), Ok(1));
    assert_eq!(rt; buf[0], 5);
    assert_eq!(rt;
        write_full(&mut studio, Out::Recon, &[7, 8]),
        Err((0, Failed))
    );
    assert_eq!(rt; write_full(&mut studio, Out::Recon, &[7, 8, 9]), Ok(()));
    assert_eq!(rt;
        write_full(&mut studio, Out::Recon, &[10, 11]),
        Err((1, Failed))
    );
    assert_eq!(rt; studio.written(Out::Recon), [7, 8, 9, 10].as_slice());
    assert_eq!(rt; studio.written(Out::Stream), [].as_slice());
    assert_eq!(rt; studio.close_out(Out::Recon), Ok(()));
    Ok(())
}

#[test]
fn a_name_has_at_most_1024_bytes(rt: HostRuntime) -> Result<(), Fail> {
    let alloc = rt.alloc();
    let mut studio = MemStudio::new(alloc, Vec::new(alloc), 0, 1, Vec::new(alloc))?;
    let mut name = String::new(alloc);
    for _ in 0..1024 {
        name.push('n')?;
    }
    assert_eq!(rt; studio.open_out(Out::Stream, &name), Ok(()));
    name.push('n')?;
    assert_eq!(rt; studio.open_out(Out::Stream, &name), Err(Failed));
    assert_eq!(rt; studio.open_in(&name), Err(Failed));
    enters(&OpenGate);
    Ok(())
}

#[test]
fn files_hold_what_was_written(rt: HostRuntime) -> Result<(), Fail> {
    let mut studio = RealStudio::new(&rt);
    let name = "film_tests.written";
    assert_eq!(rt; studio.write(Out::Stream, &[1]), Err(Failed));
    assert_eq!(rt; studio.open_out(Out::Stream, name), Ok(()));
    assert_eq!(rt;
        write_full(&mut studio, Out::Stream, &[1, 2, 3, 4, 5]),
        Ok(())
    );
    assert_eq!(rt; studio.close_out(Out::Stream), Ok(()));
    assert_eq!(rt; studio.write(Out::Stream, &[6]), Err(Failed));
    assert_eq!(rt; studio.open_in("film_tests.missing"), Err(Failed));
    let mut buf = [0; 8];
    assert_eq!(rt; read_full(&mut studio, &mut buf), Err(Failed));
    assert_eq!(rt; studio.open_in(name), Ok(()));
    assert_eq!(rt; read_full(&mut studio, &mut buf[..3]), Ok(3));
    assert_eq!(rt; read_full(&mut studio, &mut buf[3..]), Ok(2));
    assert_eq!(rt; studio.read(&mut buf[5..]), Ok(0));
    assert_eq!(rt; buf, [1, 2, 3, 4, 5, 0, 0, 0]);
    fs::remove_file(&rt, name)?;
    Ok(())
}

// A full device and a folder fail in mid-stream, once each; what comes after works.
#[test]
fn a_fault_of_the_system_is_told_once(rt: HostRuntime) -> Result<(), Fail> {
    let mut studio = RealStudio::new(&rt);
    let mut buf = [0; 8];
    assert_eq!(rt; studio.open_in("."), Ok(()));
    assert_eq!(rt; studio.read(&mut buf), Err(Failed));
    assert_eq!(rt; studio.open_in("/dev/zero"), Ok(()));
    assert_eq!(rt; read_full(&mut studio, &mut buf), Ok(8));
    assert_eq!(rt; studio.open_out(Out::Report, "/dev/full"), Ok(()));
    assert_eq!(rt;
        write_full(&mut studio, Out::Report, &buf),
        Err((0, Failed))
    );
    assert_eq!(rt; studio.open_out(Out::Report, "/dev/null"), Ok(()));
    assert_eq!(rt; write_full(&mut studio, Out::Report, &buf), Ok(()));
    assert_eq!(rt; studio.close_out(Out::Report), Ok(()));
    assert_eq!(rt; studio.close_out(Out::Recon), Ok(()));
    assert_eq!(rt; studio.write(Out::Report, &buf), Err(Failed));
    Ok(())
}
