// The hidden layers.
ghost use Rattle.std.specs.Prelude.{◌≡◌};
ghost use Rattle.plan_rules.specs.declared.Fixed.{Fixed};
ghost use Rattle.plan_rules.specs.World.{hides};
ghost use Rattle.plan_rules.specs.OnTape.{fixed_query};

// Whether a layer and data type stand among the hidden ones.
pub fn is_hidden(hidden: &[u32], layer: u32, data_type: u32) -> bool
    ensures { (fixed : Fixed) → result ≡ hides (fixed_query fixed hidden.now) layer data_type }
{
    let key = layer as u64 * 65536 + data_type as u64;
    hidden.iter().any(|shown| *shown as u64 == key)
}
