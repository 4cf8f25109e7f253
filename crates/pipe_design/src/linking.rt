//! The design that is linked of the parts of a pipeline.

ghost use Rattle.std.specs.Prelude.{◌≡◌, ◌≤◌, IfOk, IsErrOf, IsTrue, List, length, map as map_list, string_bytes};
ghost use Rattle.net_core.specs.Nets.{TRead};
ghost use Rattle.net_core.specs.Ports.{port_list};
ghost use Rattle.net_core.specs.View.{netlist_of};
ghost use Rattle.net_core.specs.ProductRules.Products.{no_product_chains};
ghost use Rattle.block_core.specs.design_rules.Formed.{IsWellFormed};
ghost use Rattle.block_core.specs.declared.error.LinkError.TheVariants as error;
ghost use Rattle.block_core.specs.declared.name.Name.TheVariants as name;
ghost use Rattle.block_core.specs.Blocks.{Whole};
ghost use Rattle.block_core.specs.Range.{design_in_range};
ghost use Rattle.block_core.specs.View.{output_of};
ghost use Rattle.pipe_net.specs.declared.parts.Part.{Part};
ghost use Rattle.pipe_net.specs.Layout.{Layout};
ghost use Rattle.pipe_net.specs.Parts as part;
ghost use Rattle.pipe_net.specs.Parts.{IsSmall};
ghost use Rattle.pipe_net.specs.PipeForms.Parts.{shown_at, outputs_of, design, names_of};
ghost use Rattle.pipe_design.specs.Linking.{IsLinked, shown_outputs};

use block_core::block::{Output, Placed};
use block_core::block_forms::laws::{linked_is_well_formed, numbers_are_names};
use block_core::name::Name;
use block_core::{LinkError, link};
use control_net::names::{Wire, wire_name};
use control_net::ring_net::names::{Register, register_name};
use frame_net::scatter_net::{bytes_name, data_name, last_name, target_name, verdict_name};
use net_core::design::{Design, Port};
use net_core::ports::{
    HOST_PASSED, HOST_READY, HOST_VALUE, IN_READY, OUT_BYTES, OUT_DATA, OUT_LAST, OUT_RELOAD,
    OUT_TARGET, OUT_VALID, OUT_VERDICT, PORT_NAMES, PORTS,
};
use net_core::tree::Expr;
use pipe_net::parts::{Part, Sizes, scatter};
use pipe_net::pipe_forms::laws::pipelines_are_formed;
use std::alloc::{AllocError, Global};
use turn_net::host_net::names as host;
use turn_net::host_net::names::value_name;

// An output that shows a net.
fn shown(port: u32, net: Name<Part>) -> Output<Name<Part>>
    ensures { output_of result ≡ shown_at port net }
{
    Output {
        port,
        value: Expr::Read(net),
    }
}

// The net of whether the first place sends back: the last wire of the part that says so.
fn first_returns(sizes: &Sizes) -> Name<Part>
    requires { IsSmall sizes.now }
    ensures { result ≡ name.Wire (part.returns sizes.now) sizes.now.commit }
{
    Name::Wire(sizes.returns(), sizes.commit)
}

// What the outputs show: beats of answers, whether the first place sends back, what the host reads and whether it is heard, and how many packets passed.
fn outputs(alloc: Global, sizes: &Sizes, words: u32) -> Result<Vec<Output<Name<Part>>>, AllocError>
    requires small { IsSmall sizes.now }
    requires few { words ≤ 255 }
    ensures { IfOk result (λ r. map_list output_of r.items ≡ shown_outputs sizes.now words sizes.now.commit) }
{
    let control = sizes.control();
    let ready = shown(IN_READY, wire_name(control, Wire::Ready));
    let valid = shown(OUT_VALID, wire_name(control, Wire::Shown));
    let content = shown(OUT_DATA, data_name(scatter(), words));
    let bytes = shown(OUT_BYTES, bytes_name(scatter()));
    let last = shown(OUT_LAST, last_name(scatter()));
    let verdict = shown(OUT_VERDICT, verdict_name(scatter()));
    let target = shown(OUT_TARGET, target_name(scatter()));
    let reload = shown(OUT_RELOAD, first_returns(sizes));
    let host_value = shown(HOST_VALUE, value_name(sizes.value()));
    let host_ready = shown(HOST_READY, host::wire_name(sizes.host(), host::Wire::Ready));
    let passed = shown(HOST_PASSED, register_name(control, Register::Passed));
    let all = vec![in alloc;
        ready, valid, content, bytes, last, verdict, target, reload, host_value, host_ready, passed,
    ]?;
    Ok(all)
}

fn ports(alloc: Global) -> Result<Vec<Port>, AllocError>
    ensures { IfOk result (λ v. v.items ≡ port_list) }
{
    Vec::from_slice(alloc, &PORTS)
}

// Copies of these texts.
fn texts(alloc: Global, all: &[&str]) -> Result<Vec<String>, AllocError>
    ensures { IfOk result (λ v. map_list string_bytes v.items ≡ map_list (λ s. s.now) all.now) }
{
    let mut texts = Vec::new(alloc);
    for text in all {
        texts.push(String::from_str(alloc, text)?)?;
    }
    Ok(texts)
}

/// The design that is linked of the parts of a pipeline, each at its place, where so many words of a frame may change. Its nets are numbered. It is well
/// formed, no product stands inside an operand of another in one clock, and [`pipe_net::pipe_clocks::laws::clocks_go_on`] says what its clocks do.
pub(crate) fn link_pipeline(
    alloc: Global,
    sizes: &Sizes,
    words: u32,
    parts: &[Placed<Part>],
) -> Result<Design, LinkError>
    requires small { IsSmall sizes.now }
    requires few { words ≤ 255 }
    ensures netlist { IfOk result (λ n. (l : Layout) (d : Whole Part) → IsLinked sizes.now words parts.now l d → netlist_of n ≡ design l d (names_of d)) }
    ensures formed { IfOk result (λ n. (l : Layout) (d : Whole Part) → IsLinked sizes.now words parts.now l d → IsWellFormed (netlist_of n)) }
    ensures apart { IfOk result (λ n. (l : Layout) (d : Whole Part) → IsLinked sizes.now words parts.now l d → IsTrue (no_product_chains (netlist_of n))) }
    ensures large { IsErrOf result error.TooMany → (l : Layout) (d : Whole Part) → IsLinked sizes.now words parts.now l d → ¬ IsTrue (design_in_range d (outputs_of l)) }
{
    pipelines_are_formed();
    linked_is_well_formed::<Part>();
    numbers_are_names::<Part>();
    let outputs = outputs(alloc, sizes, words)?;
    let names = texts(alloc, &PORT_NAMES)?;
    link(alloc, ports(alloc)?, names, parts, &outputs)
}
