//! Codes and their names.

use uimg_base::{
    arch_code, arch_text, comp_code, comp_text, kind_code, kind_text, os_code, os_text,
};

// Rows of U-Boot's tables: the table, the name, the code and the text.
const ROWS: [(&str, &str, u8, &str); 37] = [
    ("os", "netbsd", 2, "NetBSD"),
    ("os", "linux", 5, "Linux"),
    ("os", "vxworks", 14, "VxWorks"),
    ("os", "qnx", 16, "QNX"),
    ("os", "u-boot", 17, "U-Boot"),
    ("os", "rtems", 18, "RTEMS"),
    ("os", "plan9", 23, "Plan 9"),
    ("os", "arm-trusted-firmware", 25, "ARM Trusted Firmware"),
    ("os", "tee", 26, "Trusted Execution Environment"),
    ("os", "opensbi", 27, "RISC-V OpenSBI"),
    ("os", "efi", 28, "EFI Firmware"),
    ("arch", "arm", 2, "ARM"),
    ("arch", "x86", 3, "Intel x86"),
    ("arch", "mips", 5, "MIPS"),
    ("arch", "mips64", 6, "MIPS 64 Bit"),
    ("arch", "ppc", 7, "PowerPC"),
    ("arch", "powerpc", 7, "PowerPC"),
    ("arch", "sandbox", 19, "Sandbox"),
    ("arch", "arm64", 22, "AArch64"),
    ("arch", "x86_64", 24, "AMD x86_64"),
    ("arch", "riscv", 26, "RISC-V"),
    ("kind", "standalone", 1, "Standalone Program"),
    ("kind", "kernel", 2, "Kernel Image"),
    ("kind", "ramdisk", 3, "RAMDisk Image"),
    ("kind", "multi", 4, "Multi-File Image"),
    ("kind", "firmware", 5, "Firmware"),
    ("kind", "script", 6, "Script"),
    ("kind", "filesystem", 7, "Filesystem Image"),
    ("kind", "flat_dt", 8, "Flat Device Tree"),
    (
        "kind",
        "kernel_noload",
        14,
        "Kernel Image (no loading done)",
    ),
    ("comp", "none", 0, "uncompressed"),
    ("comp", "gzip", 1, "gzip compressed"),
    ("comp", "bzip2", 2, "bzip2 compressed"),
    ("comp", "lzma", 3, "lzma compressed"),
    ("comp", "lzo", 4, "lzo compressed"),
    ("comp", "lz4", 5, "lz4 compressed"),
    ("comp", "zstd", 6, "zstd compressed"),
];

// Names that are not in a table.
const NO_NAMES: [(&str, &str); 16] = [
    ("os", ""),
    ("os", "Linux"),
    ("os", "linux\0"),
    ("os", "linu"),
    ("arch", ""),
    ("arch", "ARM"),
    ("arch", "arm\0"),
    ("arch", "x86_"),
    ("kind", ""),
    ("kind", "Kernel"),
    ("kind", "kernel\0"),
    ("kind", "kernel_"),
    ("comp", ""),
    ("comp", "None"),
    ("comp", "none\0"),
    ("comp", "lz"),
];

// Codes that are not in a table, and the text of each.
const NO_CODES: [(&str, u8, &str); 12] = [
    ("os", 0, "Unknown OS"),
    ("os", 1, "Unknown OS"),
    ("os", 255, "Unknown OS"),
    ("arch", 0, "Unknown Architecture"),
    ("arch", 1, "Unknown Architecture"),
    ("arch", 255, "Unknown Architecture"),
    ("kind", 0, "Unknown Image"),
    ("kind", 9, "Unknown Image"),
    ("kind", 255, "Unknown Image"),
    ("comp", 7, "Unknown Compression"),
    ("comp", 8, "Unknown Compression"),
    ("comp", 255, "Unknown Compression"),
];

fn code_of(table: &str, name: &str) -> Option<u8> {
    match table {
        "os" => os_code(name.as_bytes()),
        "arch" => arch_code(name.as_bytes()),
        "kind" => kind_code(name.as_bytes()),
        _ => comp_code(name.as_bytes()),
    }
}

fn text_of(table: &str, code: u8) -> &'static str {
    match table {
        "os" => os_text(code),
        "arch" => arch_text(code),
        "kind" => kind_text(code),
        _ => comp_text(code),
    }
}

#[test]
fn rows_of_tables(rt: HostRuntime) {
    for (table, name, code, text) in &ROWS {
        assert_eq!(rt; code_of(table, name), Some(*code), "{table} {name}");
        assert_eq!(rt; text_of(table, *code), *text, "{table} {name}");
    }
}

#[test]
fn names_outside_tables(rt: HostRuntime) {
    for (table, name) in &NO_NAMES {
        assert_eq!(rt; code_of(table, name), None, "{table} {name}");
    }
}

#[test]
fn codes_outside_tables(rt: HostRuntime) {
    for (table, code, text) in &NO_CODES {
        assert_eq!(rt; text_of(table, *code), *text, "{table} {code}");
    }
}
