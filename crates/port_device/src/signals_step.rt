//! A tick: each signal steps once, and the low bytes of its value become those of the symbol that it writes.

ghost use Rattle.std.specs.Prelude.{◌≡◌, ◌+◌, ◌≤◌, length, map};
ghost use Rattle.spec_plant.specs.Accepted.{image_size, IMAGE_LIMIT};
ghost use Rattle.spec_plant.specs.Description.{size_in};
ghost use Rattle.type_layout.specs.Descriptions.{area_of, sizes_of};
ghost use Rattle.symbol_table.specs.Rows.{symbol_of_row};
ghost use Rattle.signals.specs.Bank.{waves_of};
ghost use Rattle.signals.specs.Wave.{wave_after_step};
ghost use Rattle.spec_machine.specs.World.{World};
ghost use Rattle.spec_machine.specs.Ticks.{world_after_tick};
ghost use Rattle.port_device.specs.Holds.{HoldsPorts};
ghost use Rattle.port_device.specs.Signals.{port_after_step, ports_after_steps, with_value_at};

use crate::areas::put_bytes;
use crate::bound::symbol_of;
use crate::{Port, Ports};
use process_image::Image;
use signals::{Bank, Signal};
use symbol_table::SymbolRow;
use type_layout::Sizes;

impl Ports {
    /// A tick: each signal of the bank steps once, in order, and the low bytes of its value become those of the symbol that
    /// it writes. Only symbols that signals write are touched.
    pub fn step_signals(&mut self, bank: &mut Bank)
        ensures ports { (w : World) → HoldsPorts w self.old
            → w.signals ≡ waves_of (λ b. (⟦<dyn Signal as Signal>⟧ b.vtable).wave b.value) bank.old
            → HoldsPorts (world_after_tick w) self.new }
        ensures bank { waves_of (λ b. (⟦<dyn Signal as Signal>⟧ b.vtable).wave b.value) bank.new
            ≡ map wave_after_step (waves_of (λ b. (⟦<dyn Signal as Signal>⟧ b.vtable).wave b.value) bank.old) }
    {
        step_all(self.ports.as_mut_slice(), bank);
    }
}

fn step_all(ports: &mut [Port], bank: &mut Bank)
    ensures ports { ports.new ≡ ports_after_steps 0 (waves_of (λ b. (⟦<dyn Signal as Signal>⟧ b.vtable).wave b.value) bank.old) ports.old }
    ensures bank { waves_of (λ b. (⟦<dyn Signal as Signal>⟧ b.vtable).wave b.value) bank.new
        ≡ map wave_after_step (waves_of (λ b. (⟦<dyn Signal as Signal>⟧ b.vtable).wave b.value) bank.old) }
{
    for signal in 0..bank.count() {
        let value = bank.step(signal);
        put_value(ports, signal, value);
    }
}

// A step of a signal at all ports.
fn put_value(ports: &mut [Port], signal: u32, value: u64)
    ensures { ports.new ≡ map (port_after_step signal value) ports.old }
{
    for port in ports.iter_mut() {
        port.follow(signal, value);
    }
}

impl Port {
    // The symbol that a signal writes, if any, follows its value.
    fn follow(&mut self, signal: u32, value: u64)
        ensures { self.new ≡ port_after_step signal value self.old }
    {
        match symbol_of(self.bound.as_slice(), signal) {
            None => {}
            Some(number) => {
                let row = &self.table.symbols()[number as usize];
                put_low_bytes(&mut self.image, &self.sizes, row, value);
            }
        }
    }
}

// The low bytes of a value, as many as a symbol has, up to eight.
fn put_low_bytes(image: &mut Image, sizes: &Sizes, row: &SymbolRow, value: u64)
    requires few { image_size (sizes_of sizes.now) ≤ IMAGE_LIMIT }
    requires image { length image.old ≡ image_size (sizes_of sizes.now) }
    requires within { row.now.at + row.now.len ≤ size_in (sizes_of sizes.now) (area_of row.now.area) }
    ensures bytes { image.new ≡ with_value_at (sizes_of sizes.now) value (symbol_of_row row.now) image.old }
    ensures image { length image.new ≡ image_size (sizes_of sizes.now) }
{
    let bytes = value.to_le_bytes();
    let len = (row.len as usize).min(8);
    put_bytes(image, sizes, row.area, row.at, &bytes[..len]);
}
