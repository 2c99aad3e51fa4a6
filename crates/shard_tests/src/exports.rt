//! The feed of two journals, whole and up to a line that is bad, and a sink that fails.
ghost use Rattle.std.specs.Prelude.{◌≡◌, vec_len, IfOk};

use crate::journals::{COMMAND, STATUS, store, two_shards};
use journal_reader::{ExportFault, Exporter, RecordFault};
use memory_edge::{MemorySink, MemoryStore};
use std::alloc::Global;
use std::test::Fail;

/// Two stores with these texts.
fn two_stores(alloc: Global, first: &str, second: &str) -> Result<Vec<MemoryStore>, Fail>
    ensures { IfOk result (λ stores. vec_len stores ≡ 2) }
{
    let first = store(alloc, first.as_bytes().to_vec(alloc)?, &[])?;
    let second = store(alloc, second.as_bytes().to_vec(alloc)?, &[])?;
    Ok(vec![in alloc; first, second]?)
}

/// What an export writes of two journals with these texts to a sink that fails at these calls, and how it ends.
fn exported(
    alloc: Global,
    first: &str,
    second: &str,
    fails: &[u64],
) -> Result<(String, Result<(), ExportFault>), Fail> {
    let mut stores = two_stores(alloc, first, second)?;
    let mut out = MemorySink::new(alloc, 4_096, fails.to_vec(alloc)?)?;
    let ended = export_to(alloc, &mut stores, &mut out)?;
    Ok((String::from_utf8(out.bytes().to_vec(alloc)?)?, ended))
}

/// How an export of two journals to a sink ends.
fn export_to(
    alloc: Global,
    stores: &mut Vec<MemoryStore>,
    out: &mut MemorySink,
) -> Result<Result<(), ExportFault>, Fail>
    requires { vec_len stores.old ≡ 2 }
{
    let issuer = two_shards(alloc)?;
    let mut exporter = Exporter::new(alloc)?;
    Ok(exporter.export(&issuer, stores, out))
}

#[test]
fn each_record_has_its_shard_and_index(rt: HostRuntime) -> Result<(), Fail> {
    let alloc = rt.alloc();
    let first = format!(in alloc; "v2\n{STATUS}{COMMAND}")?;
    let second = format!(in alloc; "v2\n{STATUS}s 40")?;
    let (text, ended) = exported(alloc, &first, &second, &[])?;
    let feed = format!(in alloc; "0 0 {STATUS}0 1 {COMMAND}1 0 {STATUS}")?;
    assert_eq!(rt; text.as_str(), feed.as_str());
    assert!(rt; ended.is_ok());
    Ok(())
}

#[test]
fn a_bad_line_ends_the_feed_behind_the_records_before(rt: HostRuntime) -> Result<(), Fail> {
    let alloc = rt.alloc();
    let first = format!(in alloc; "v2\n{STATUS}")?;
    let second = format!(in alloc; "v2\n{COMMAND}other\n{STATUS}")?;
    let (text, ended) = exported(alloc, &first, &second, &[])?;
    let feed = format!(in alloc; "0 0 {STATUS}1 0 {COMMAND}")?;
    assert_eq!(rt; text.as_str(), feed.as_str());
    assert!(rt;
        matches!(
            ended,
            Err(ExportFault::Unread {
                fault: RecordFault::BadLine(3),
                shard: 1
            })
        )
    );
    let (text, ended) = exported(alloc, &first, STATUS, &[])?;
    let feed = format!(in alloc; "0 0 {STATUS}")?;
    assert_eq!(rt; text.as_str(), feed.as_str());
    assert!(rt;
        matches!(
            ended,
            Err(ExportFault::Unread {
                fault: RecordFault::BadLine(1),
                shard: 1
            })
        )
    );
    Ok(())
}

#[test]
fn a_sink_that_fails_ends_an_export(rt: HostRuntime) -> Result<(), Fail> {
    let alloc = rt.alloc();
    let first = format!(in alloc; "v2\n{STATUS}")?;
    let (text, ended) = exported(alloc, &first, "v2\n", &[0])?;
    assert_eq!(rt; text.as_str(), "");
    assert!(rt; matches!(ended, Err(ExportFault::WriteFault)));
    Ok(())
}
