//! Each form of a region and of a module, and an output that refuses.

use mdmp_lister::{Item, MemoryInfoItem, ModuleItem, Name};
use mdmp_print::{LineForm, LineOut, print_item};
use mdmp_source::{Extent, Location, PatchyOut};
use mdmp_wire::{MemoryInfoRecord, ModuleRecord, UnitsRef, VersionInfo};
use std::test::Fail;

fn region() -> Item<'static> {
    Item::MemoryInfo(MemoryInfoItem {
        entry: 3,
        index: 12,
        fields: MemoryInfoRecord {
            base_address: 0x7ff612340000,
            allocation_base: 0xfedcba9876543210,
            allocation_protect: 4294967295,
            region_size: 18446744073709551615,
            state: 0x1000,
            protect: 0,
            memory_type: 100000000,
        },
    })
}

fn module(name: Name<'_>) -> Item<'_> {
    Item::Module(ModuleItem {
        entry: 1,
        index: 0,
        fields: ModuleRecord {
            base_of_image: 0x400000,
            size_of_image: 99,
            checksum: 100,
            time_date_stamp: 0x5f0a9999,
            module_name_rva: 5,
            version_info: VersionInfo {
                signature: 0,
                structure_version: 0,
                file_version_ms: 0x000a0001,
                file_version_ls: 0xffff0000,
                product_version_ms: 0x000b0002,
                product_version_ls: 3,
                file_flags_mask: 0,
                file_flags: 0,
                file_os: 0,
                file_type: 0,
                file_subtype: 0,
                file_date_ms: 0,
                file_date_ls: 0,
            },
            cv_record: Location { size: 42, rva: 10 },
            misc_record: Location { size: 7, rva: 0 },
            reserved0: 0,
            reserved1: 0,
        },
        codeview: Extent::Inside,
        misc: Extent::Absent,
        name,
    })
}

#[test]
fn prints_regions(rt: HostRuntime) -> Result<(), Fail> {
    let mut inner = PatchyOut::with_room(rt.alloc(), 4096, 7, None)?;
    let mut buffer = [0; 1024];
    let mut out = LineOut::over(&mut buffer, &mut inner);
    print_item(LineForm::Text, region(), &mut out).map_err(|_| "out")?;
    print_item(LineForm::Json, region(), &mut out).map_err(|_| "out")?;
    out.flush().map_err(|_| "out")?;
    let expected =
        "region 12 base 0x00007ff612340000 allocation 0xfedcba9876543210 initial 4294967295 size 18446744073709551615 state 4096 protect 0 type 100000000\n{\"line\":\"region\",\"entry\":3,\"index\":12,\"base\":\"0x00007ff612340000\",\"allocation\":\"0xfedcba9876543210\",\"initial\":4294967295,\"size\":\"18446744073709551615\",\"state\":4096,\"protect\":0,\"type\":100000000}\n";
    assert_eq!(rt; inner.bytes(), expected.as_bytes());
    Ok(())
}

#[test]
fn prints_modules(rt: HostRuntime) -> Result<(), Fail> {
    let mut inner = PatchyOut::with_room(rt.alloc(), 4096, 100, None)?;
    let mut buffer = [0; 1024];
    let mut out = LineOut::over(&mut buffer, &mut inner);
    let units = UnitsRef::over(b"a\0\\\0\x22\0\x0a\0\xe9\0\x3d\xd8\x00\xde\x00\xdc");
    print_item(LineForm::Text, module(Name::Units(units)), &mut out).map_err(|_| "out")?;
    print_item(LineForm::Json, module(Name::Units(units)), &mut out).map_err(|_| "out")?;
    print_item(LineForm::Json, module(Name::Long(70000)), &mut out).map_err(|_| "out")?;
    out.flush().map_err(|_| "out")?;
    let front =
        "module 0 base 0x0000000000400000 size 99 checksum 100 time 1594530201 version 10.1.65535.0 cv inside 42@10 misc absent 7 name ";
    let object =
        "{\"line\":\"module\",\"entry\":1,\"index\":0,\"base\":\"0x0000000000400000\",\"size\":99,\"checksum\":100,\"time\":1594530201,\"version\":\"10.1.65535.0\",\"cv\":{\"class\":\"inside\",\"size\":42,\"offset\":10},\"misc\":{\"class\":\"absent\",\"size\":7},\"name\":";
    let ids = ",\"code_id\":\"5F0A999963\",\"product_version\":\"11.2.0.3\"}\n";
    let expected = format!(in rt.alloc();
        "{front}\"a\\u005c\"\\u000a\\u00e9\\ud83d\\ude00\\udc00\"\n{object}\"a\\\\\\\"\\né😀\u{fffd}\",\"lossy\":true{ids}{object}{{\"long\":70000}}{ids}"
    )?;
    assert_eq!(rt; inner.bytes(), expected.as_bytes());
    Ok(())
}

#[test]
fn stops_at_a_refusal(rt: HostRuntime) -> Result<(), Fail> {
    let mut inner = PatchyOut::with_room(rt.alloc(), 4096, 100, Some(3))?;
    let mut buffer = [0; 1024];
    let mut out = LineOut::over(&mut buffer, &mut inner);
    let first = print_item(LineForm::Text, region(), &mut out);
    let second = print_item(LineForm::Text, region(), &mut out);
    let third = print_item(LineForm::Text, region(), &mut out);
    assert!(rt; first.is_ok() && second.is_ok());
    assert!(rt; third.is_err());
    assert_eq!(rt; inner.bytes().len(), 245);
    Ok(())
}
