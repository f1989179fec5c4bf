//! The files of examples/, each with its kind. Written by tools/example_inputs.py.

/// The kind and the text of each.
pub const INPUTS: [(&str, &str); 29] = [
    // ammonia_loop.toml
    (
        "flowsheet",
        "# Nitrogen and hydrogen with a little argon go round a reactor; the ammonia is taken out, and a tee lets a tenth of the\n# gas go, so that the argon does not gather.\ncomponents = [\"nitrogen\", \"hydrogen\", \"argon\", \"ammonia\"]\nstreams = [\"fresh\", \"charge\", \"effluent\", \"ammonia\", \"gas\", \"purge\", \"recycle\"]\n\n[[unit]]\nname = \"FreshNitrogen\"\nkind = \"spec\"\nstream = \"fresh\"\ncomponent = \"nitrogen\"\n\n[[unit]]\nname = \"FreshHydrogen\"\nkind = \"spec\"\nstream = \"fresh\"\ncomponent = \"hydrogen\"\n\n[[unit]]\nname = \"FreshArgon\"\nkind = \"spec\"\nstream = \"fresh\"\ncomponent = \"argon\"\n\n[[unit]]\nname = \"FreshAmmonia\"\nkind = \"spec\"\nstream = \"fresh\"\ncomponent = \"ammonia\"\n\n[[unit]]\nname = \"Mix\"\nkind = \"mixer\"\ninlets = [\"fresh\", \"recycle\"]\noutlet = \"charge\"\n\n[[unit]]\nname = \"Converter\"\nkind = \"reactor\"\ninlet = \"charge\"\noutlet = \"effluent\"\nstoich = { nitrogen = -1, hydrogen = -3, ammonia = 2 }\n\n# how much is converted depends on the nitrogen that comes in, by a number that is not known yet\n[[unit]]\nname = \"Conversion\"\nkind = \"relation\"\nunknowns = [\"x.Converter\", \"f.charge.nitrogen\"]\n\n[[unit]]\nname = \"Condenser\"\nkind = \"separator\"\ninlet = \"effluent\"\ntop = \"gas\"\nbottom = \"ammonia\"\n\n[[unit]]\nname = \"Purge\"\nkind = \"tee\"\ninlet = \"gas\"\nfirst = \"purge\"\nsecond = \"recycle\"\nfraction = \"1/10\"\n",
    ),
    // audio_transformer.cir
    (
        "netlist",
        "* A transformer of 10 to 1 between an amplifier with its inner resistance and a loudspeaker with its coil.\n* It shows a number that counts: the ratio is exact, the resistances are not known. All is determined.\nV1 amp 0 AC 20\nRS amp primary 8\n.transformer T1 primary 0 secondary 0 10\nLS secondary speaker 1m\nRL speaker 0 8\n",
    ),
    // batteries_in_parallel.cir
    (
        "netlist",
        "* Two batteries in parallel without a resistance in either, and a lamp: a loop of voltage sources.\n* It shows an equation too many: both sources say what the voltage of the node is, and if the two values differ there is no\n* solution. How the lamp's current is shared between them stays open. batteries_with_resistance.cir is the remedy.\nV1 plus 0 12\nV2 plus 0 12\nR1 plus 0 6\n",
    ),
    // batteries_with_resistance.cir
    (
        "netlist",
        "* The two batteries of batteries_in_parallel.cir, each with its inner resistance, and the lamp.\n* It shows that the resistances make the circuit sound: all currents are determined.\nV1 cell1 0 12\nR2 cell1 plus 0.1\nV2 cell2 0 12\nR3 cell2 plus 0.1\nR1 plus 0 6\n",
    ),
    // bridge.txt
    (
        "matrix",
        "# A bridge of four resistors and a meter branch: Kirchhoff's laws alone.\n# Currents i1 to i5 and branch voltages v1 to v5; the source drives i0 at v0.\nunknown i0 i1 i2 i3 i4 i5\n\neq node.a i0=1 i1=-1 i2=-1\neq node.b i1=1 i3=-1 i5=-1\neq node.c i2=1 i4=-1 i5=1\neq loop.1 v1=1 v5=1 v2=-1\neq loop.2 v3=1 v4=-1 v5=-1\neq loop.3 v0=1 v1=-1 v3=-1\n",
    ),
    // bridge_with_laws.txt
    (
        "matrix",
        "# A bridge of four resistors and a meter: the laws of Kirchhoff, and a law for each branch.\n# Currents i1 to i5 and branch voltages v1 to v5; the source drives i0 at v0.\nunknown i0 i1 i2 i3 i4 i5\n\neq node.a i0=1 i1=-1 i2=-1\neq node.b i1=1 i3=-1 i5=-1\neq node.c i2=1 i4=-1 i5=1\neq loop.1 v1=1 v5=1 v2=-1\neq loop.2 v3=1 v4=-1 v5=-1\neq loop.3 v0=1 v1=-1 v3=-1\n\neq source v0=1                       # the voltage of the source is given\neq r1     v1=-1 i1=?                 # v1 = R1 i1, with an unknown resistance\neq r2     v2=-1 i2=?\neq r3     v3=-1 i3=?\neq r4     v4=-1 i4=?\neq meter  v5=-1 i5=?\n",
    ),
    // cancels_in_the_field.txt
    ("matrix", "eq first x=256 y=15\neq second x=1 y=256\n"),
    // common_emitter.cir
    (
        "netlist",
        "* Common-emitter stage, as its small-signal model: the transistor is RPI, RO, CMU and the transconductance G1, and the\n* supply is ground.\n* It shows a sound stage with feedback: RE and CMU lead from the output back to the input, so that the voltages and currents of\n* all resistors and capacitors are determined together, in one block.\nV1 in 0 AC 1\nRS in source 600\nCIN source base 10u\nRB base 0 22k\nRPI base emitter 2.5k\nCMU base collector 2p\nG1 collector emitter base emitter 40m\nRO collector emitter 100k\nRC collector 0 4.7k\nRE emitter 0 100\nCOUT collector out 10u\nRL out 0 10k\n",
    ),
    // coupling_at_rest.cir
    (
        "netlist",
        "* examples/coupling.sp at rest, as tools/deck_to_netlist.py --at-rest writes it: nothing says what the voltage of g is.\nv1 in 0\ni.c1 in g\ni.c2 g 0\nr1 in 0\n",
    ),
    // current_mirror.cir
    (
        "netlist",
        "* A current mirror: the source V2 of 0 volts measures the current that flows in, and F1 draws as much at the output.\n* It shows that a controlled source takes the current of a voltage source by its name. Nothing leads back, so that all is\n* determined one by one: R1's voltage and current, V2's current, F1's, and RL's current and voltage.\nV1 supply 0 5\nR1 supply in 4.3k\nV2 in 0 0\nF1 out 0 V2 1\nRL supply out 1k\n",
    ),
    // current_sources_in_series.cir
    (
        "netlist",
        "* Two current sources in series into a resistor: at the node between them there is nothing but current sources.\n* It shows a cut of current sources: of the laws of both and that of the currents at `mid` one is too many, and the voltage of\n* `mid` is open, with the voltages over both sources. The resistor's voltage is determined.\nI1 0 mid 1m\nI2 mid out 1m\nR1 out 0 1k\n",
    ),
    // floating_secondary.cir
    (
        "netlist",
        "* The transformer of audio_transformer.cir with a secondary side that touches the ground nowhere.\n* It shows the usual mistake of isolated circuits: the currents and the voltages between two nodes are determined, but the\n* voltages of the secondary's nodes against the ground are open together, and one of its laws of currents is too many.\n* A line that joins one of these nodes to the ground is the remedy.\nV1 amp 0 AC 20\nRS amp primary 8\n.transformer T1 primary 0 plus minus 10\nRL plus minus 8\n",
    ),
    // gyrator_inductor.cir
    (
        "netlist",
        "* A gyrator that ends in a capacitor C2 acts like an inductor of R * R * C2 henries; with C1 it is a resonant circuit.\n* It shows a sound circuit without a coil: the gyrator's resistance is a number that counts.\nV1 in 0 AC 1\nR1 in tank 10k\nC1 tank 0 10n\n.gyrator X1 tank 0 inner 0 1000\nC2 inner 0 10n\n",
    ),
    // heat_exchanger.toml
    (
        "flowsheet",
        "# A hot stream warms a cold one: the heat that one gives is tied to the heat that the other takes, so the cold flow\n# follows from the hot one.\ncomponents = [\"water\"]\nstreams = [\"hot_in\", \"hot_out\", \"cold_in\", \"cold_out\"]\n\n[[unit]]\nname = \"HotFeed\"\nkind = \"spec\"\nstream = \"hot_in\"\ncomponent = \"water\"\n\n[[unit]]\nname = \"HotSide\"\nkind = \"mixer\"\ninlets = [\"hot_in\"]\noutlet = \"hot_out\"\n\n[[unit]]\nname = \"ColdSide\"\nkind = \"mixer\"\ninlets = [\"cold_in\"]\noutlet = \"cold_out\"\n\n[[unit]]\nname = \"Given\"\nkind = \"balance\"\nstreams = [\"hot_in\", \"hot_out\"]\n\n[[unit]]\nname = \"Taken\"\nkind = \"balance\"\nstreams = [\"cold_in\", \"cold_out\"]\n\n[[unit]]\nname = \"Duty\"\nkind = \"relation\"\nunknowns = [\"q.Given\", \"q.Taken\"]\n",
    ),
    // lone_constant.txt
    ("matrix", "eq a x=1\n"),
    // metered_pipe.txt
    (
        "matrix",
        "# Water through a controlled valve into two branches. Two meters see the same flow; no law says how it is shared.\neq meter.1 flow=?                    # a reading is the flow times a gain, and no gain is known\neq meter.2 flow=?\neq valve   flow=? drop=? opening=?   # a linear law with unknown coefficients\neq control opening=1 drop=-2         # the valve opens with twice the drop\neq pump    head=1 opening=-1         # the pump is driven by the same signal\neq node    flow=1 left=-1 right=-1\n",
    ),
    // mixing_tank.txt
    (
        "matrix",
        "# A tank joins two streams; a quarter of what leaves it goes back.\nunknown feed out back            # the order of the columns\n\neq mass   feed=1 back=1 out=-1\neq return back=+1 out=-1/4\neq spec   feed=1                 # the feed is given\n",
    ),
    // opamp_without_feedback.cir
    (
        "netlist",
        "* An ideal operational amplifier as a comparator: nothing leads from its output back to its inputs.\n* It shows the same fault from two sides: the source and the amplifier both say what the voltage of `in` is, and nothing\n* says what that of `out` is. As a linear circuit a comparator is no circuit.\nV1 in 0 1\n.opamp U1 in 0 out\nRL out 0 1k\n",
    ),
    // overspecified_still.toml
    (
        "flowsheet",
        "# A still whose feed and top are both given: how the feed splits follows from them, so one equation is too many.\ncomponents = [\"spirit\"]\nstreams = [\"mash\", \"head\", \"slops\"]\n\n[[unit]]\nname = \"Mash\"\nkind = \"spec\"\nstream = \"mash\"\ncomponent = \"spirit\"\n\n[[unit]]\nname = \"Still\"\nkind = \"separator\"\ninlet = \"mash\"\ntop = \"head\"\nbottom = \"slops\"\n\n[[unit]]\nname = \"Head\"\nkind = \"spec\"\nstream = \"head\"\ncomponent = \"spirit\"\n",
    ),
    // positive_feedback.txt
    (
        "matrix",
        "# An amplifier of the nominal gain 10, and a tenth of its output is added to its input: a loop gain of exactly 1.\neq input     e=1 y=-1/10             # e = u + y/10, with a given u\neq amplifier e=-10+? y=1             # y = (10 + deviation) e\n",
    ),
    // reactor_train.toml
    (
        "flowsheet",
        "# Ethane is cracked to ethylene, and two thirds of a mole of propylene come of each ethylene in a second reactor.\ncomponents = [\"ethane\", \"ethylene\", \"propylene\", \"hydrogen\"]\nstreams = [\"feed\", \"cracked\", \"out\"]\n\n[[unit]]\nname = \"Ethane\"\nkind = \"spec\"\nstream = \"feed\"\ncomponent = \"ethane\"\n\n[[unit]]\nname = \"Ethylene\"\nkind = \"spec\"\nstream = \"feed\"\ncomponent = \"ethylene\"\n\n[[unit]]\nname = \"Propylene\"\nkind = \"spec\"\nstream = \"feed\"\ncomponent = \"propylene\"\n\n[[unit]]\nname = \"Hydrogen\"\nkind = \"spec\"\nstream = \"feed\"\ncomponent = \"hydrogen\"\n\n[[unit]]\nname = \"Cracker\"\nkind = \"reactor\"\ninlet = \"feed\"\noutlet = \"cracked\"\nstoich = { ethane = -1, ethylene = 1, hydrogen = 1 }\n\n[[unit]]\nname = \"Trimer\"\nkind = \"reactor\"\ninlet = \"cracked\"\noutlet = \"out\"\nstoich = { ethylene = -1, propylene = \"2/3\" }\n\n# what is measured at the end fixes both extents\n[[unit]]\nname = \"Unreacted\"\nkind = \"spec\"\nstream = \"out\"\ncomponent = \"ethane\"\n\n[[unit]]\nname = \"Sold\"\nkind = \"spec\"\nstream = \"out\"\ncomponent = \"propylene\"\n",
    ),
    // recycled_brine.toml
    (
        "flowsheet",
        "# Fresh brine and a recycle are mixed, and a separator sends back what the product does not take.\ncomponents = [\"water\", \"salt\"]\nstreams = [\"feed\", \"mixed\", \"product\", \"recycle\"]\n\n[[unit]]\nname = \"FeedWater\"\nkind = \"spec\"\nstream = \"feed\"\ncomponent = \"water\"\n\n[[unit]]\nname = \"FeedSalt\"\nkind = \"spec\"\nstream = \"feed\"\ncomponent = \"salt\"\n\n[[unit]]\nname = \"Mix\"\nkind = \"mixer\"\ninlets = [\"feed\", \"recycle\"]\noutlet = \"mixed\"\n\n[[unit]]\nname = \"Still\"\nkind = \"separator\"\ninlet = \"mixed\"\ntop = \"product\"\nbottom = \"recycle\"\n",
    ),
    // regular.txt
    (
        "matrix",
        "eq mass feed=1 top=65520 bottom=65520\neq split top=1 bottom=65518\neq spec feed=1\n",
    ),
    // sallen_key.cir
    (
        "netlist",
        "* Sallen-Key low-pass filter of second order, with an ideal operational amplifier as its follower.\n* It shows a sound circuit around an amplifier, whose own law says only that both inputs are at one voltage: the resistors and\n* capacitors are determined together, and the load waits for them while nothing waits for the load.\nV1 in 0 AC 1\nR1 in a 10k\nR2 a b 10k\nC1 a out 22n\nC2 b 0 10n\n.opamp U1 b out out\nRL out 0 100k\n",
    ),
    // same_sum_twice.txt
    (
        "matrix",
        "# Two meters on one header: each reads the sum of both flows, and none reads one of them.\neq meter.1 north=1 south=1\neq meter.2 north=1 south=1\n",
    ),
    // spring_and_masses.txt
    (
        "matrix",
        "# Two masses at rest on one spring: mass 2 on the left, mass 1/2 on the right.\n# Unknowns: the spring's force f, its ends x1 and x2, the accelerations a1 and a2.\neq spring f=1 x1=1.5 x2=-1.5     # f = 3/2 (x2 - x1)\neq left   a1=2    f=-1\neq right  a2=0.50 f=1\neq rest1  a1=1\neq rest2  a2=1                   # the left mass alone gave f = 0 already\n",
    ),
    // surplus_equation.txt
    (
        "matrix",
        "eq loop v1=1 v2=1\neq node v1=1 v2=65520\neq again v1=2\n",
    ),
    // three_outlets.toml
    (
        "flowsheet",
        "# Version 2: a drum with three outlets, and a header that deals its water out to three pumps by known shares.\nversion = 2\ncomponents = [\"oil\", \"water\"]\nstreams = [\"well\", \"gas\", \"crude\", \"brine\", \"one\", \"two\", \"three\"]\n\n[[unit]]\nname = \"Oil\"\nkind = \"spec\"\nstream = \"well\"\ncomponent = \"oil\"\n\n[[unit]]\nname = \"Water\"\nkind = \"spec\"\nstream = \"well\"\ncomponent = \"water\"\n\n[[unit]]\nname = \"Drum\"\nkind = \"separator\"\ninlet = \"well\"\noutlets = [\"gas\", \"crude\", \"brine\"]\n\n[[unit]]\nname = \"Header\"\nkind = \"tee\"\ninlet = \"brine\"\noutlets = [\"one\", \"two\", \"three\"]\nfractions = [\"1/2\", \"0.3\"]\n",
    ),
    // wheatstone_bridge.cir
    (
        "netlist",
        "* Wheatstone bridge: four resistors, a meter across the middle, and a source. All values are unknown to mixed.\n* It shows a sound circuit: no equation is too many and no unknown is open, whatever the values are but for special ones. That\n* the meter reads 0 in balance hangs on values, so mixed can't tell.\nV1 top 0 5\nR1 top left 1k\nR2 top right 1k\nR3 left 0 1k\nR4 right 0 1k\n* the meter\nR5 left right 50\n",
    ),
];
