//! The names of dtc's checks, which its warnings have.

ghost use Rattle.std.specs.Prelude.{◌≡◌, map};
ghost use Rattle.std.specs.{List.{list_any}, Str.{bytes_eq}};
ghost use Rattle.uimg_compat.specs.DtcChecks.{is_check, without_no};

/// The names that `dtc -W` and `dtc -E` of 1.6.1 take.
const CHECKS: [&str; 88] = [
    "addr_size_cells",
    "address_cells_is_cell",
    "alias_paths",
    "always_fail",
    "avoid_default_addr_size",
    "avoid_unnecessary_addr_size",
    "chosen_node_bootargs",
    "chosen_node_is_root",
    "chosen_node_stdout_path",
    "clocks_is_cell",
    "clocks_property",
    "compatible_is_string_list",
    "cooling_device_is_cell",
    "cooling_device_property",
    "deprecated_gpio_property",
    "device_type_is_string",
    "dma_ranges_format",
    "dmas_is_cell",
    "dmas_property",
    "duplicate_label",
    "duplicate_node_names",
    "duplicate_property_names",
    "explicit_phandles",
    "gpios_property",
    "graph_child_address",
    "graph_endpoint",
    "graph_nodes",
    "graph_port",
    "hwlocks_is_cell",
    "hwlocks_property",
    "i2c_bus_bridge",
    "i2c_bus_reg",
    "interrupt_provider",
    "interrupts_extended_is_cell",
    "interrupts_extended_property",
    "interrupts_property",
    "io_channels_is_cell",
    "io_channels_property",
    "iommus_is_cell",
    "iommus_property",
    "label_is_string",
    "mboxes_is_cell",
    "mboxes_property",
    "model_is_string",
    "msi_parent_is_cell",
    "msi_parent_property",
    "mux_controls_is_cell",
    "mux_controls_property",
    "name_is_string",
    "name_properties",
    "names_is_string_list",
    "node_name_chars",
    "node_name_chars_strict",
    "node_name_format",
    "node_name_vs_property_name",
    "obsolete_chosen_interrupt_controller",
    "omit_unused_nodes",
    "path_references",
    "pci_bridge",
    "pci_device_bus_num",
    "pci_device_reg",
    "phandle_references",
    "phys_is_cell",
    "phys_property",
    "power_domains_is_cell",
    "power_domains_property",
    "property_name_chars",
    "property_name_chars_strict",
    "pwms_is_cell",
    "pwms_property",
    "ranges_format",
    "reg_format",
    "resets_is_cell",
    "resets_property",
    "simple_bus_bridge",
    "simple_bus_reg",
    "size_cells_is_cell",
    "sound_dai_is_cell",
    "sound_dai_property",
    "spi_bus_bridge",
    "spi_bus_reg",
    "status_is_string",
    "thermal_sensors_is_cell",
    "thermal_sensors_property",
    "unique_unit_address",
    "unique_unit_address_if_enabled",
    "unit_address_format",
    "unit_address_vs_reg",
];

/// The name may follow `no-`.
#[tactic(auto, unfolding(crate::specs::DtcChecks::is_check, crate::specs::DtcChecks::dtc_checks))]
pub(crate) fn is_check(name: &str) -> bool
    ensures { result ≡ is_check name.now }
{
    is_among(without_no(name), &CHECKS)
}

fn without_no(name: &str) -> &str
    ensures { result.now ≡ without_no name.now }
{
    name.strip_prefix("no-").unwrap_or(name)
}

fn is_among(name: &str, names: &[&str]) -> bool
    ensures { result ≡ list_any (λ known. bytes_eq known name.now) (map (λ known. known.now) names.now) }
{
    for known in names {
        if *known == name {
            return true;
        }
    }
    false
}
