// How long commands on standard disks last at most, as numbers.
ghost use Rattle.std.specs.Prelude.{◌≡◌, ℕ, List};
ghost use Rattle.laws_commands.specs.Common.{R250, R500};
ghost use Rattle.laws_commands.specs.Times.{copy_port_accesses, copy_time, export_port_accesses, export_time, import_port_accesses, import_time, rescue_port_accesses, rescue_time, standard_disk, verify_port_accesses, verify_time, whole_format_port_accesses, whole_format_time};

/// A law: the most device steps and port accesses of commands on standard disks of 80 cylinders. The first disk has
/// 1.44 MB, and the second 720 KB. The numbers are worked out from those of single requests.
pub fn standard_disks_take_this_long()
    ensures first { (words : List ℕ) → let disk = standard_disk R500 words in
        (whole_format_time 80 R500 ≡ 230655993) × (verify_time disk ≡ 220513593) × (copy_time disk ≡ 889779184)
        × (import_time R500 ≡ 669265593) × (export_time disk ≡ 220513593) × (rescue_time disk ≡ 889779184) }
    ensures first_accesses { (words : List ℕ) → let disk = standard_disk R500 words in
        (whole_format_port_accesses 80 R500 ≡ 273314) × (verify_port_accesses disk ≡ 432194) × (copy_port_accesses disk ≡ 1388046)
        × (import_port_accesses R500 ≡ 955874) × (export_port_accesses disk ≡ 432194) × (rescue_port_accesses disk ≡ 1388046) }
    ensures second { (words : List ℕ) → let disk = standard_disk R250 words in
        (whole_format_time 80 R250 ≡ 61453473) × (verify_time disk ≡ 56261313) × (copy_time disk ≡ 229019584)
        × (import_time R250 ≡ 172758273) × (export_time disk ≡ 56261313) × (rescue_time disk ≡ 229019584) }
    ensures second_accesses { (words : List ℕ) → let disk = standard_disk R250 words in
        (whole_format_port_accesses 80 R250 ≡ 148040) × (verify_port_accesses disk ≡ 216200) × (copy_port_accesses disk ≡ 705498)
        × (import_port_accesses R250 ≡ 489320) × (export_port_accesses disk ≡ 216200) × (rescue_port_accesses disk ≡ 705498) }
{}
