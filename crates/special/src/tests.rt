use crate::folder_library::FolderLibrary;
use crate::out_sink::OutSink;
use sp_driver::{Status, run};
use sp_outside::{Failed, Library, LoadFault, Sink};
use std::io::{self, ErrorKind, Write};
use std::test::Fail;
use std::{env, fs, process};

const SWAP: [(&str, &str); 4] = [
    (
        "m.iface",
        "INTERFACE m MODULES m; LATTICE LOW; LEVEL a() IS LOW; LEVEL b() IS LOW; LEVEL swap() IS LOW; SAMPLE s;
END_INTERFACE",
    ),
    (
        "m.special",
        "MODULE m FUNCTIONS VFUN a() -> INTEGER; INITIALLY 1; VFUN b() -> INTEGER; INITIALLY 2;
OFUN swap(); EFFECTS 'a() = b(); 'b() = a(); END_MODULE",
    ),
    ("s.inst", "INSTANCE s END_INSTANCE"),
    ("s.script", "swap(); a(); b();"),
];

const REPORT: &[u8] = b"INTERFACE m
0 swap() DONE
1 a() VALUE 2
2 b() VALUE 1
END 3
";

/// A writer that takes all pieces, and fails to hand them on.
#[derive(Drop)]
struct Unflushed;

impl Write for Unflushed {
    fn write(&mut self, piece: &[u8]) -> io::Result<usize> {
        Ok(piece.len())
    }

    fn flush(&mut self) -> io::Result<()> {
        Err(io::Error::from(ErrorKind::TimedOut))
    }
}

#[test]
fn a_folder_answers_each_load(rt: HostRuntime) -> Result<(), Fail> {
    let alloc = rt.alloc();
    let folder = env::temp_dir(&rt)?;
    let name = format!(in alloc;
        "{}/special_test_{}",
        folder.display(),
        process::id(rt.process())
    )?;
    let text = vec![in alloc; b'x'; 5000]?;
    fs::write(&rt, name.as_str(), text.as_slice())?;
    let mut library = FolderLibrary::new(&rt);
    let mut whole = Vec::new(alloc);
    assert_eq!(rt; library.load(&name, 5000, &mut whole), Ok(()));
    assert!(rt; whole == text);
    let mut into = Vec::new(alloc);
    assert_eq!(rt;
        library.load(&name, 4999, &mut into),
        Err(LoadFault::TooLong)
    );
    fs::remove_file(&rt, name.as_str())?;
    assert_eq!(rt;
        library.load(&name, 5000, &mut Vec::new(alloc)),
        Err(LoadFault::Missing)
    );
    Ok(())
}

#[test]
fn a_folder_in_place_of_a_file_is_failed(rt: HostRuntime) -> Result<(), Fail> {
    let mut library = FolderLibrary::new(&rt);
    let mut into = Vec::new(rt.alloc());
    assert_eq!(rt; library.load("/", 5000, &mut into), Err(LoadFault::Failed));
    Ok(())
}

#[test]
fn a_failed_flush_is_a_failed_write(rt: HostRuntime) -> Result<(), Fail> {
    assert_eq!(rt; OutSink::new(Unflushed).put(b"ab"), Err(Failed));
    Ok(())
}

#[test]
fn a_writer_takes_what_it_has_room_for(rt: HostRuntime) -> Result<(), Fail> {
    let mut room = [0u8; 4];
    let mut out = OutSink::new(room.as_mut_slice());
    assert_eq!(rt; out.put(b"ab"), Ok(()));
    assert_eq!(rt; out.put(b"cde"), Err(Failed));
    assert_eq!(rt; room, *b"abcd");
    Ok(())
}

#[test]
fn a_script_runs_over_files(rt: HostRuntime) -> Result<(), Fail> {
    let alloc = rt.alloc();
    for (name, text) in SWAP {
        fs::write(&rt, name, text)?;
    }
    let mut words = Vec::new(alloc);
    for word in ["run", "m.iface", "s.inst", "s.script"] {
        words.push(String::from_str(alloc, word)?)?;
    }
    let mut room = [0u8; REPORT.len()];
    let mut out = OutSink::new(room.as_mut_slice());
    let status = run(alloc, &words, &mut FolderLibrary::new(&rt), &mut out);
    for (name, _) in SWAP {
        fs::remove_file(&rt, name)?;
    }
    assert_eq!(rt; status, Status::Ok);
    assert_eq!(rt; room.as_slice(), REPORT);
    Ok(())
}
