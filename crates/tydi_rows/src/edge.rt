//! The system's files, and a writer as a sink: the behaviour that no contract can state.

use tydi_io::{Failed, FileStore, Sink, Store, StreamSink};

#[test]
fn reads_what_the_system_has(rt: HostRuntime) {
    let mut store = FileStore::new(&rt);
    let mut into = [1u8; 4];
    let before = store.pull(&mut into) == Ok(0);
    let zeros = (store.start("/dev/zero") == Ok(true)) & (store.pull(&mut into) == Ok(4));
    let zeros = zeros & (into == [0u8; 4]);
    let missing = (store.start("/no such file") == Ok(false)) & (store.pull(&mut into) == Ok(0));
    let no_folder = store.start("/dev/null/file") == Err(Failed);
    let folder = (store.start("/") == Ok(true)) & (store.pull(&mut into) == Err(Failed));
    assert!(rt;
        before & zeros & missing & no_folder & folder,
        "{before} {zeros} {missing} {no_folder} {folder}"
    );
}

#[test]
fn a_writer_that_takes_nothing_fails(rt: HostRuntime) {
    let mut room = [0u8; 2];
    let mut sink = StreamSink::new(&mut room[..]);
    let taken = (sink.push(b"") == Ok(0)) & (sink.push(b"abc") == Ok(2));
    let failed = sink.push(b"c") == Err(Failed);
    assert!(rt; taken & failed & (room == *b"ab"), "{taken} {failed}");
}
